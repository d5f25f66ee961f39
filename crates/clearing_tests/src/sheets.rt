use crate::number;
use clearing::{Clearing, LimitSheet};

#[test]
fn limits_at_their_borders(rt: HostRuntime) {
    let mut sheet = LimitSheet::new();
    for (participant, limit, refused) in [
        (0, 1, 0),
        (63, 1_000_000_000, 0),
        (64, 1, 19),
        (4_294_967_295, 0, 19),
        (1, 1_000_000_001, 19),
        (1, 4_294_967_295, 19),
    ] {
        assert_eq!(rt; number(sheet.set_limit(participant, limit)), refused);
    }
    assert_eq!(rt; sheet.limit(0), 1);
    assert_eq!(rt; sheet.limit(1), 0);
    assert_eq!(rt; sheet.limit(63), 1_000_000_000);
    assert_eq!(rt; sheet.limit(64), 0);
}

#[test]
fn a_limit_stays_while_lots_are_held(rt: HostRuntime) {
    let mut sheet = LimitSheet::new();
    assert_eq!(rt; number(sheet.set_limit(5, 100)), 0);
    assert!(rt; sheet.reserve(5, 1));
    assert_eq!(rt; number(sheet.set_limit(5, 200)), 19);
    assert_eq!(rt; sheet.limit(5), 100);
    assert!(rt; sheet.release(5, 1));
    assert_eq!(rt; number(sheet.set_limit(5, 200)), 0);
    assert_eq!(rt; sheet.limit(5), 200);
}

#[test]
fn a_sheet_reserves_up_to_its_limit(rt: HostRuntime) {
    let mut sheet = LimitSheet::new();
    assert_eq!(rt; number(sheet.set_limit(5, 100)), 0);
    assert!(rt; !sheet.reserve(5, 101));
    assert_eq!(rt; sheet.free(5), 100);
    assert!(rt; sheet.reserve(5, 100));
    assert_eq!(rt; sheet.free(5), 0);
    assert_eq!(rt; sheet.held(5), 100);
    assert!(rt; !sheet.reserve(5, 1));
    assert!(rt; sheet.reserve(5, 0));
    assert!(rt; !sheet.reserve(64, 0));
}

#[test]
fn a_sheet_releases_up_to_what_is_held(rt: HostRuntime) {
    let mut sheet = LimitSheet::new();
    assert_eq!(rt; number(sheet.set_limit(5, 100)), 0);
    assert!(rt; sheet.reserve(5, 40));
    assert!(rt; !sheet.release(5, 41));
    assert_eq!(rt; sheet.held(5), 40);
    assert!(rt; sheet.release(5, 40));
    assert_eq!(rt; sheet.held(5), 0);
    assert_eq!(rt; sheet.free(5), 100);
    assert!(rt; !sheet.release(5, 1));
    assert!(rt; !sheet.release(64, 0));
}
