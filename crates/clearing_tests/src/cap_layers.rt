use crate::number;
use caps::Cap;
use clearing::{Clearing, LimitSheet};

#[test]
fn caps_at_their_borders(rt: HostRuntime) {
    let mut capped = Cap::new(LimitSheet::new());
    for (participant, cap, refused) in [
        (63, 1_000_000_000, 0),
        (64, 1, 19),
        (1, 1_000_000_001, 19),
    ] {
        assert_eq!(rt; number(capped.set_cap(participant, cap)), refused);
    }
    assert_eq!(rt; capped.cap(63), 1_000_000_000);
    assert_eq!(rt; capped.cap(1), 0);
}

#[test]
fn a_cap_stays_while_its_count_is_above_0(rt: HostRuntime) {
    let mut capped = Cap::new(LimitSheet::new());
    assert_eq!(rt; number(capped.below_mut().set_limit(2, 100)), 0);
    assert_eq!(rt; number(capped.set_cap(2, 60)), 0);
    assert!(rt; capped.reserve(2, 60));
    assert_eq!(rt; number(capped.set_cap(2, 70)), 19);
    assert_eq!(rt; capped.cap(2), 60);
    assert!(rt; capped.release(2, 60));
    assert_eq!(rt; number(capped.set_cap(2, 70)), 0);
    assert_eq!(rt; capped.cap(2), 70);
}

#[test]
fn the_lesser_of_cap_and_limit_is_free(rt: HostRuntime) {
    let mut capped = Cap::new(LimitSheet::new());
    assert_eq!(rt; number(capped.below_mut().set_limit(2, 100)), 0);
    assert_eq!(rt; number(capped.set_cap(2, 60)), 0);
    assert!(rt; !capped.reserve(2, 61));
    assert!(rt; capped.reserve(2, 60));
    assert_eq!(rt; capped.count(2), 60);
    assert_eq!(rt; capped.free(2), 0);
    assert_eq!(rt; capped.below().free(2), 40);
    assert!(rt; !capped.release(2, 61));
    assert!(rt; capped.release(2, 60));
}

#[test]
fn a_figure_below_changes_past_the_layer(rt: HostRuntime) {
    let mut capped = Cap::new(LimitSheet::new());
    assert_eq!(rt; number(capped.below_mut().set_limit(2, 100)), 0);
    assert_eq!(rt; number(capped.set_cap(2, 60)), 0);
    assert!(rt; capped.reserve(2, 50));
    assert!(rt; capped.below_mut().release(2, 50));
    assert_eq!(rt; number(capped.below_mut().set_limit(2, 5)), 0);
    assert_eq!(rt; capped.cap(2), 60);
    assert_eq!(rt; capped.count(2), 50);
    assert_eq!(rt; capped.free(2), 5);
    assert_eq!(rt; capped.held(2), 0);
}

#[test]
fn two_caps_on_a_sheet(rt: HostRuntime) {
    let mut top = Cap::new(Cap::new(LimitSheet::new()));
    assert_eq!(rt; number(top.below_mut().below_mut().set_limit(4, 100)), 0);
    assert_eq!(rt; number(top.below_mut().set_cap(4, 80)), 0);
    assert_eq!(rt; number(top.set_cap(4, 50)), 0);
    assert!(rt; top.below_mut().reserve(4, 35));
    assert_eq!(rt; top.free(4), 45);
    assert!(rt; !top.reserve(4, 46));
    assert!(rt; top.reserve(4, 45));
    assert_eq!(rt; top.held(4), 45);
    assert_eq!(rt; top.below().held(4), 80);
    assert_eq!(rt; top.below().below().free(4), 20);
}
