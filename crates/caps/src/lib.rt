//! A cap: a layer over any clearing, with a cap and a count of its own for each participant.
#![tactic(auto)]

ghost use Rattle.std.specs.Prelude.{◌≡◌, if◌then◌else◌};
ghost use Rattle.std.specs.Borrow.{sem, follows};
ghost use Rattle.clearing.specs.Book.{can_reserve, reserved, to_held, can_release, released, to_free, empty, total, settable, limited};
ghost use Rattle.clearing.specs.Refused.{refused_with, refused_unless};
ghost use Rattle.clearing.specs.Makeup.{taken, returned};
ghost use Rattle.caps.specs.Caps.{count_book, cap_book, cap_makeup};
ghost use Rattle.caps.specs.contracts.Cap.{the_row};
ghost use Rattle.std.proofs.Common.{rules};

use clearing::{Clearing, LimitSheet, Refusal};

/// Grants no more than the clearing below and no more than its own cap less its count.
#[derive(Drop)]
pub struct Cap<C> {
    below: C,
    own: LimitSheet,
}

impl<C: Clearing> Cap<C> {
    /// A layer over `below` with every cap and count 0.
    pub fn new(below: C) -> Cap<C>
        ensures below { result.below ≡ below }
        ensures own { count_book result ≡ empty }
    {
        Cap {
            below,
            own: LimitSheet::new(),
        }
    }

    /// The participant's cap.
    pub fn cap(&self, participant: u32) -> u32
        ensures { result ≡ total (count_book self.now) participant }
    {
        self.own.limit(participant)
    }

    /// The lots that the layer has counted for the participant.
    pub fn count(&self, participant: u32) -> u32
        ensures { result ≡ (count_book self.now).held participant }
    {
        self.own.held(participant)
    }

    /// The clearing below.
    pub fn below(&self) -> &C
        ensures { result.now ≡ self.now.below }
    {
        &self.below
    }

    /// The clearing below, to be changed past the layer.
    pub fn below_mut(&mut self) -> &mut C
        ensures value { result.now ≡ self.old.below }
        ensures* follows { sem 𝓛 (follows (the_row C.row) C.row self.entry.ghost_name result.ghost_name (λ w. record { below = w; own = self.old.own })) }
    {
        &mut self.below
    }

    /// Sets a participant's cap while the layer counts nothing for him.
    pub fn set_cap(&mut self, participant: u32, cap: u32) -> Result<(), Refusal>
        ensures answer { refused_with result ≡ refused_unless (settable (count_book self.old) participant «cap») }
        ensures own { count_book self.new ≡ limited (count_book self.old) participant «cap» }
        ensures below { self.new.below ≡ self.old.below }
    {
        self.own.set_limit(participant, cap)
    }
}

impl<C: Clearing> Clearing for Cap<C> {
    ghost book = { cap_book C.Clearing.book };

    ghost makeup = { cap_makeup C.Clearing.makeup };

    ghost shows = { Prim.search rules };

    ghost bounded = { Prim.search rules };

    ghost strangers_free = { Prim.search rules };

    ghost strangers_held = { Prim.search rules };

    fn free(&self, participant: u32) -> u32 {
        self.below.free(participant).min(self.own.free(participant))
    }

    fn held(&self, participant: u32) -> u32 {
        self.below.held(participant).min(self.count(participant))
    }

    fn reserve(&mut self, participant: u32, lots: u32) -> bool
        ensures answer { result ≡ can_reserve (cap_book C.Clearing.book self.old) participant lots }
        ensures after { cap_book C.Clearing.book self.new ≡ reserved (cap_book C.Clearing.book self.old) participant lots }
        ensures inside { cap_makeup C.Clearing.makeup self.new ≡ (if can_reserve (cap_book C.Clearing.book self.old) participant lots then taken (cap_makeup C.Clearing.makeup self.old) participant lots else cap_makeup C.Clearing.makeup self.old) }
        ensures own { count_book self.new ≡ (if can_reserve (cap_book C.Clearing.book self.old) participant lots then to_held (count_book self.old) participant lots else count_book self.old) }
        ensures below { C.Clearing.book self.new.below ≡ (if can_reserve (cap_book C.Clearing.book self.old) participant lots then to_held (C.Clearing.book self.old.below) participant lots else C.Clearing.book self.old.below) }
    {
        if lots > self.free(participant) {
            return false;
        }
        self.below.reserve(participant, lots) && self.own.reserve(participant, lots)
    }

    fn release(&mut self, participant: u32, lots: u32) -> bool
        ensures answer { result ≡ can_release (cap_book C.Clearing.book self.old) participant lots }
        ensures after { cap_book C.Clearing.book self.new ≡ released (cap_book C.Clearing.book self.old) participant lots }
        ensures inside { cap_makeup C.Clearing.makeup self.new ≡ (if can_release (cap_book C.Clearing.book self.old) participant lots then returned (cap_makeup C.Clearing.makeup self.old) participant lots else cap_makeup C.Clearing.makeup self.old) }
        ensures own { count_book self.new ≡ (if can_release (cap_book C.Clearing.book self.old) participant lots then to_free (count_book self.old) participant lots else count_book self.old) }
        ensures below { C.Clearing.book self.new.below ≡ (if can_release (cap_book C.Clearing.book self.old) participant lots then to_free (C.Clearing.book self.old.below) participant lots else C.Clearing.book self.old.below) }
    {
        if lots > self.held(participant) {
            return false;
        }
        self.below.release(participant, lots) && self.own.release(participant, lots)
    }
}
