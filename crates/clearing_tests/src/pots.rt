use crate::number;
use clearing::{Clearing, TwoPots};

#[test]
fn pots_at_their_borders(rt: HostRuntime) {
    let mut pots = TwoPots::new();
    for (participant, money, securities, refused) in [
        (63, 1_000_000_000, 0, 0),
        (1, 999_999_999, 1, 0),
        (2, 1_000_000_000, 1, 19),
        (2, 4_294_967_295, 4_294_967_295, 19),
        (64, 1, 1, 19),
    ] {
        assert_eq!(rt;
            number(pots.set_pots(participant, money, securities)),
            refused
        );
    }
    assert_eq!(rt; pots.money(1), 999_999_999);
    assert_eq!(rt; pots.securities(1), 1);
    assert_eq!(rt; pots.free(2), 0);
}

#[test]
fn pots_stay_while_lots_are_held(rt: HostRuntime) {
    let mut pots = TwoPots::new();
    assert_eq!(rt; number(pots.set_pots(7, 30, 50)), 0);
    assert!(rt; pots.reserve(7, 1));
    assert_eq!(rt; number(pots.set_pots(7, 10, 10)), 19);
    assert!(rt; pots.release(7, 1));
    assert_eq!(rt; number(pots.set_pots(7, 10, 20)), 0);
    assert_eq!(rt; pots.money(7), 10);
    assert_eq!(rt; pots.securities(7), 20);
}

#[test]
fn money_is_taken_first(rt: HostRuntime) {
    let mut pots = TwoPots::new();
    assert_eq!(rt; number(pots.set_pots(7, 30, 50)), 0);
    assert!(rt; !pots.reserve(7, 81));
    assert!(rt; pots.reserve(7, 40));
    assert_eq!(rt; pots.money(7), 0);
    assert_eq!(rt; pots.securities(7), 40);
    assert_eq!(rt; pots.held(7), 40);
    assert!(rt; pots.reserve(7, 40));
    assert_eq!(rt; pots.free(7), 0);
}

#[test]
fn securities_are_refilled_first(rt: HostRuntime) {
    let mut pots = TwoPots::new();
    assert_eq!(rt; number(pots.set_pots(7, 30, 50)), 0);
    assert!(rt; pots.reserve(7, 40));
    assert!(rt; !pots.release(7, 41));
    assert!(rt; pots.release(7, 15));
    assert_eq!(rt; pots.money(7), 5);
    assert_eq!(rt; pots.securities(7), 50);
    assert_eq!(rt; pots.held(7), 25);
    assert!(rt; pots.release(7, 25));
    assert_eq!(rt; pots.money(7), 30);
}
