//! A pile: a base and the caps on it.
ghost use Rattle.std.specs.Prelude.{◌≡◌};
ghost use Rattle.std.specs.Fn.{FnOnceReturnsAtMut};
ghost use Rattle.pile.specs.Parts.{told_by, limit_told, limit_set, pots_told, pots_put, cap_told, cap_set, left_in};
ghost use Rattle.pile.specs.Piles.{pile_book, pile_makeup, new_pile, makeup_in, base_of, with_base};
ghost use Rattle.pile.specs.PileClearingLemmas.{pile_bounded};
ghost use Rattle.std.proofs.Common.{rules};

use crate::base::{Base, BaseKind};
use crate::set_error::SetError;
use caps::Cap;
use clearing::Clearing;

/// A base with no cap, one cap or two caps on it.
#[derive(Drop)]
pub enum Pile {
    Bare(Base),
    Capped(Cap<Base>),
    CappedTwice(Cap<Cap<Base>>),
}

impl Pile {
    /// A pile of a base and 0 to 2 caps, every figure 0.
    // A number of caps, and in `set_cap` of a layer, and no enum: any number may be asked for, and one that there is not is refused.
    pub fn new(base: BaseKind, caps: u32) -> Option<Pile>
        ensures { makeup_in result ≡ new_pile base caps }
    {
        let base = Base::new(base);
        match caps {
            0 => Some(Pile::Bare(base)),
            1 => Some(Pile::Capped(Cap::new(base))),
            2 => Some(Pile::CappedTwice(Cap::new(Cap::new(base)))),
            _ => None,
        }
    }

    /// What the participant's money and securities pots have left; nothing over a sheet.
    pub fn left(&self, participant: u32) -> Option<(u32, u32)>
        ensures { result ≡ left_in (pile_makeup self.now) participant }
    {
        match self {
            Pile::Bare(base) => base.left(participant),
            Pile::Capped(top) => top.below().left(participant),
            Pile::CappedTwice(top) => top.below().below().left(participant),
        }
    }

    /// Sets a participant's limit, over a sheet.
    pub fn set_limit(&mut self, participant: u32, limit: u32) -> Result<(), SetError>
        ensures answer { told_by result ≡ limit_told (pile_makeup self.old) participant limit }
        ensures inside { pile_makeup self.new ≡ limit_set (pile_makeup self.old) participant limit }
    {
        self.at_base(|base| base.set_limit(participant, limit))
    }

    /// Sets a participant's two pots, over pots.
    pub fn set_pots(
        &mut self,
        participant: u32,
        money: u32,
        securities: u32,
    ) -> Result<(), SetError>
        ensures answer { told_by result ≡ pots_told (pile_makeup self.old) participant money securities }
        ensures inside { pile_makeup self.new ≡ pots_put (pile_makeup self.old) participant money securities }
    {
        self.at_base(|base| base.set_pots(participant, money, securities))
    }

    /// Sets a participant's cap in a layer; layer 1 is next to the base.
    pub fn set_cap(&mut self, layer: u32, participant: u32, cap: u32) -> Result<(), SetError>
        ensures answer { told_by result ≡ cap_told (pile_makeup self.old) layer participant «cap» }
        ensures inside { pile_makeup self.new ≡ cap_set (pile_makeup self.old) layer participant «cap» }
    {
        match self {
            Pile::Capped(top) if layer == 1 => top.set_cap(participant, cap)?,
            Pile::CappedTwice(top) if layer == 1 => top.below_mut().set_cap(participant, cap)?,
            Pile::CappedTwice(top) if layer == 2 => top.set_cap(participant, cap)?,
            _ => return Err(SetError::NoSuchPart),
        }
        Ok(())
    }

    /// What a change of the base answers; the caps stay.
    fn at_base<R, F: FnOnce(&mut Base) -> R>(&mut self, change: F) -> R
        requires { F.IsAlwaysCallable change }
        ensures base { FnOnceReturnsAtMut F.FnOnce change (base_of self.old) result (base_of self.new) }
        ensures caps { self.new ≡ with_base self.old (base_of self.new) }
    {
        match self {
            Pile::Bare(base) => change(base),
            Pile::Capped(top) => change(top.below_mut()),
            Pile::CappedTwice(top) => change(top.below_mut().below_mut()),
        }
    }
}

// A match in each: no closure takes three types of clearing, and a `dyn Clearing` may not be made and handed out.
impl Clearing for Pile {
    ghost book = { pile_book };

    ghost makeup = { pile_makeup };

    ghost shows = { Prim.search rules };

    ghost bounded = { λ pile. (pile_bounded pile).most };

    ghost strangers_free = { λ pile. (pile_bounded pile).free };

    ghost strangers_held = { λ pile. (pile_bounded pile).held };

    fn free(&self, participant: u32) -> u32 {
        match self {
            Pile::Bare(base) => base.free(participant),
            Pile::Capped(top) => top.free(participant),
            Pile::CappedTwice(top) => top.free(participant),
        }
    }

    fn held(&self, participant: u32) -> u32 {
        match self {
            Pile::Bare(base) => base.held(participant),
            Pile::Capped(top) => top.held(participant),
            Pile::CappedTwice(top) => top.held(participant),
        }
    }

    fn reserve(&mut self, participant: u32, lots: u32) -> bool {
        match self {
            Pile::Bare(base) => base.reserve(participant, lots),
            Pile::Capped(top) => top.reserve(participant, lots),
            Pile::CappedTwice(top) => top.reserve(participant, lots),
        }
    }

    fn release(&mut self, participant: u32, lots: u32) -> bool {
        match self {
            Pile::Bare(base) => base.release(participant, lots),
            Pile::Capped(top) => top.release(participant, lots),
            Pile::CappedTwice(top) => top.release(participant, lots),
        }
    }
}
