//! What a pile stands on: a limit sheet or two pots.
ghost use Rattle.std.specs.Prelude.{◌≡◌};
ghost use Rattle.pile.specs.Parts.{told_by, limit_told, limit_set, pots_told, pots_put, left_in, empty_base};
ghost use Rattle.pile.specs.Bases.{base_book, base_makeup};
ghost use Rattle.pile.specs.Bounds.{base_bounded};
ghost use Rattle.std.proofs.Common.{rules};

use crate::set_error::SetError;
use clearing::{Clearing, LimitSheet, TwoPots};

/// The two kinds of base.
#[derive(Clone, Copy, Debug, PartialEq, Eq)]
pub enum BaseKind {
    /// A limit sheet.
    Sheet,
    /// The two pots.
    Pots,
}

/// What lies under the caps.
#[derive(Drop)]
pub enum Base {
    Sheet(LimitSheet),
    Pots(TwoPots),
}

impl Base {
    /// A base with every figure 0.
    pub(crate) fn new(kind: BaseKind) -> Base
        ensures { base_makeup result ≡ empty_base kind }
    {
        match kind {
            BaseKind::Sheet => Base::Sheet(LimitSheet::new()),
            BaseKind::Pots => Base::Pots(TwoPots::new()),
        }
    }

    /// What the participant's money and securities pots have left; nothing over a sheet.
    pub(crate) fn left(&self, participant: u32) -> Option<(u32, u32)>
        ensures { result ≡ left_in (base_makeup self.now) participant }
    {
        match self {
            Base::Sheet(_) => None,
            Base::Pots(pots) => Some((pots.money(participant), pots.securities(participant))),
        }
    }

    /// Sets a participant's limit, over a sheet.
    // Two setters of two lines, since each has its own part and its own figures.
    pub(crate) fn set_limit(&mut self, participant: u32, limit: u32) -> Result<(), SetError>
        ensures answer { told_by result ≡ limit_told (base_makeup self.old) participant limit }
        ensures inside { base_makeup self.new ≡ limit_set (base_makeup self.old) participant limit }
    {
        match self {
            Base::Sheet(sheet) => Ok(sheet.set_limit(participant, limit)?),
            Base::Pots(_) => Err(SetError::NoSuchPart),
        }
    }

    /// Sets a participant's two pots, over pots.
    pub(crate) fn set_pots(
        &mut self,
        participant: u32,
        money: u32,
        securities: u32,
    ) -> Result<(), SetError>
        ensures answer { told_by result ≡ pots_told (base_makeup self.old) participant money securities }
        ensures inside { base_makeup self.new ≡ pots_put (base_makeup self.old) participant money securities }
    {
        match self {
            Base::Sheet(_) => Err(SetError::NoSuchPart),
            Base::Pots(pots) => Ok(pots.set_pots(participant, money, securities)?),
        }
    }
}

// A match in each: no closure takes two types of clearing, and a generic enum would name them left and right.
impl Clearing for Base {
    ghost book = { base_book };

    ghost makeup = { base_makeup };

    ghost shows = { Prim.search rules };

    ghost bounded = { λ base. (base_bounded base).most };

    ghost strangers_free = { λ base. (base_bounded base).free };

    ghost strangers_held = { λ base. (base_bounded base).held };

    fn free(&self, participant: u32) -> u32 {
        match self {
            Base::Sheet(sheet) => sheet.free(participant),
            Base::Pots(pots) => pots.free(participant),
        }
    }

    fn held(&self, participant: u32) -> u32 {
        match self {
            Base::Sheet(sheet) => sheet.held(participant),
            Base::Pots(pots) => pots.held(participant),
        }
    }

    fn reserve(&mut self, participant: u32, lots: u32) -> bool {
        match self {
            Base::Sheet(sheet) => sheet.reserve(participant, lots),
            Base::Pots(pots) => pots.reserve(participant, lots),
        }
    }

    fn release(&mut self, participant: u32, lots: u32) -> bool {
        match self {
            Base::Sheet(sheet) => sheet.release(participant, lots),
            Base::Pots(pots) => pots.release(participant, lots),
        }
    }
}
