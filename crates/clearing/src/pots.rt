//! The two pots: reserving takes money first, releasing refills securities first.
ghost use Rattle.std.specs.Prelude.{◌≡◌, if◌then◌else◌};
ghost use Rattle.clearing.specs.Book.{can_reserve, reserved, can_release, released};
ghost use Rattle.clearing.specs.Makeup.{pots};
ghost use Rattle.clearing.specs.Pots.{empty_pots, joint, drawn, refilled, pots_settable, pots_set};
ghost use Rattle.clearing.specs.Refused.{refused_with, refused_unless};
ghost use Rattle.clearing.specs.TwoPots.{pots_of, uniform_pots};
ghost use Rattle.std.proofs.Common.{rules};

use crate::accounts::{Account, Accounts};
use crate::cover::{Clearing, Refusal};
use crate::line::Line;
use crate::purse::Purse;

/// A pot of money and a pot of securities for each participant; free is what both have left.
#[derive(Drop)]
pub struct TwoPots {
    purses: Accounts<Purse>,
}

#[tactic(auto, unfolding(crate::specs::TwoPots::pots_of))]
impl TwoPots {
    /// Two empty pots for everyone.
    pub fn new() -> TwoPots
        ensures { pots_of result ≡ empty_pots }
    {
        let empty = Line { limit: 0, held: 0 };
        TwoPots::with_purse(Purse {
            money: empty,
            securities: empty,
        })
    }

    /// What the participant's money pot has left.
    pub fn money(&self, participant: u32) -> u32
        ensures { result ≡ (pots_of self.now).money.free participant }
    {
        self.purses.at(participant).money.free()
    }

    /// What the participant's securities pot has left.
    pub fn securities(&self, participant: u32) -> u32
        ensures { result ≡ (pots_of self.now).securities.free participant }
    {
        self.purses.at(participant).securities.free()
    }

    /// Sets a participant's two pots while he holds nothing.
    // Two figures, and no struct of them: a script's line has them apart, and so has the answer of what is left.
    pub fn set_pots(&mut self, participant: u32, money: u32, securities: u32) -> Result<(), Refusal>
        ensures answer { refused_with result ≡ refused_unless (pots_settable (pots_of self.old) participant money securities) }
        ensures after { pots_of self.new ≡ pots_set (pots_of self.old) participant money securities }
    {
        self.purses
            .open(participant, Purse::new(money, securities)?)
    }

    /// The same purse for every participant.
    // Apart from `new`, whose own text has the figures that it opens with.
    fn with_purse(purse: Purse) -> TwoPots
        ensures { pots_of result ≡ uniform_pots purse }
    {
        TwoPots {
            purses: Accounts::each(purse),
        }
    }
}

#[tactic(auto, unfolding(crate::specs::TwoPots::pots_of))]
impl Clearing for TwoPots {
    ghost book = { λ t. joint (pots_of t) };

    ghost makeup = { λ t. pots (pots_of t) };

    ghost shows = { Prim.search rules };

    ghost bounded = { unfold pots_of in Prim.search rules };

    ghost strangers_free = { unfold pots_of in Prim.search rules };

    ghost strangers_held = { unfold pots_of in Prim.search rules };

    fn free(&self, participant: u32) -> u32 {
        self.purses.free(participant)
    }

    fn held(&self, participant: u32) -> u32 {
        self.purses.held(participant)
    }

    fn reserve(&mut self, participant: u32, lots: u32) -> bool
        ensures answer { result ≡ can_reserve (joint (pots_of self.old)) participant lots }
        ensures after { joint (pots_of self.new) ≡ reserved (joint (pots_of self.old)) participant lots }
        ensures inside { pots (pots_of self.new) ≡ (if can_reserve (joint (pots_of self.old)) participant lots then pots (drawn (pots_of self.old) participant lots) else pots (pots_of self.old)) }
        ensures pots { pots_of self.new ≡ (if can_reserve (joint (pots_of self.old)) participant lots then drawn (pots_of self.old) participant lots else pots_of self.old) }
    {
        self.purses.reserve(participant, lots)
    }

    fn release(&mut self, participant: u32, lots: u32) -> bool
        ensures answer { result ≡ can_release (joint (pots_of self.old)) participant lots }
        ensures after { joint (pots_of self.new) ≡ released (joint (pots_of self.old)) participant lots }
        ensures inside { pots (pots_of self.new) ≡ (if can_release (joint (pots_of self.old)) participant lots then pots (refilled (pots_of self.old) participant lots) else pots (pots_of self.old)) }
        ensures pots { pots_of self.new ≡ (if can_release (joint (pots_of self.old)) participant lots then refilled (pots_of self.old) participant lots else pots_of self.old) }
    {
        self.purses.release(participant, lots)
    }
}
