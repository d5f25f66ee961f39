use crate::part_number;
use clearing::Clearing;
use pile::{BaseKind, Pile};
use std::test::Fail;

#[test]
fn at_most_two_caps(rt: HostRuntime) {
    assert!(rt; Pile::new(BaseKind::Sheet, 2).is_some());
    assert!(rt; Pile::new(BaseKind::Pots, 2).is_some());
    assert!(rt; Pile::new(BaseKind::Sheet, 3).is_none());
    assert!(rt; Pile::new(BaseKind::Pots, 4_294_967_295).is_none());
}

#[test]
fn a_pile_of_two_caps(rt: HostRuntime) -> Result<(), Fail> {
    let Some(mut pile) = Pile::new(BaseKind::Sheet, 2) else {
        return Err(Fail::new("no pile"));
    };
    assert_eq!(rt; part_number(pile.set_limit(4, 100)), 0);
    assert_eq!(rt; part_number(pile.set_cap(1, 4, 80)), 0);
    assert_eq!(rt; part_number(pile.set_cap(2, 4, 50)), 0);
    assert_eq!(rt; pile.free(4), 50);
    assert!(rt; !pile.reserve(4, 51));
    assert!(rt; pile.reserve(4, 50));
    assert_eq!(rt; pile.held(4), 50);
    assert_eq!(rt; part_number(pile.set_cap(1, 4, 90)), 19);
    assert!(rt; !pile.release(4, 51));
    assert!(rt; pile.release(4, 50));
    Ok(())
}

#[test]
fn parts_that_a_pile_lacks(rt: HostRuntime) -> Result<(), Fail> {
    let Some(mut sheet) = Pile::new(BaseKind::Sheet, 1) else {
        return Err(Fail::new("no pile"));
    };
    assert_eq!(rt; part_number(sheet.set_pots(1, 1, 1)), 1);
    assert_eq!(rt; part_number(sheet.set_cap(0, 1, 1)), 1);
    assert_eq!(rt; part_number(sheet.set_cap(2, 1, 1)), 1);
    assert!(rt; sheet.left(1).is_none());
    let Some(mut pots) = Pile::new(BaseKind::Pots, 0) else {
        return Err(Fail::new("no pile"));
    };
    assert_eq!(rt; part_number(pots.set_limit(1, 1)), 1);
    assert_eq!(rt; part_number(pots.set_cap(1, 1, 1)), 1);
    Ok(())
}

#[test]
fn pots_under_two_caps(rt: HostRuntime) -> Result<(), Fail> {
    let Some(mut pile) = Pile::new(BaseKind::Pots, 2) else {
        return Err(Fail::new("no pile"));
    };
    assert_eq!(rt; part_number(pile.set_pots(9, 30, 50)), 0);
    assert_eq!(rt; part_number(pile.set_cap(1, 9, 70)), 0);
    assert_eq!(rt; part_number(pile.set_cap(2, 9, 60)), 0);
    assert!(rt; pile.reserve(9, 60));
    assert_eq!(rt; pile.left(9), Some((0, 20)));
    assert!(rt; pile.release(9, 35));
    assert_eq!(rt; pile.left(9), Some((5, 50)));
    Ok(())
}
