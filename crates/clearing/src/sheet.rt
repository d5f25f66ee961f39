//! The limit sheet: one opening limit for each participant.
ghost use Rattle.std.specs.Prelude.{◌≡◌};
ghost use Rattle.clearing.specs.Book.{empty, total, settable, limited};
ghost use Rattle.clearing.specs.Refused.{refused_with, refused_unless};
ghost use Rattle.clearing.specs.Makeup.{plain};
ghost use Rattle.clearing.specs.Sheet.{sheet_book, uniform};
ghost use Rattle.std.proofs.Common.{rules};

use crate::accounts::Accounts;
use crate::cover::{Clearing, Refusal};
use crate::line::Line;

/// One limit for each participant; free is the limit less held.
#[derive(Drop)]
pub struct LimitSheet {
    lines: Accounts<Line>,
}

#[tactic(auto, unfolding(crate::specs::Sheet::sheet_book))]
impl LimitSheet {
    /// A sheet with every limit 0.
    pub fn new() -> LimitSheet
        ensures { sheet_book result ≡ empty }
    {
        LimitSheet::with_line(Line { limit: 0, held: 0 })
    }

    /// The participant's opening limit.
    pub fn limit(&self, participant: u32) -> u32
        ensures { result ≡ total (sheet_book self.now) participant }
    {
        self.lines.at(participant).limit
    }

    /// Sets a participant's limit while he holds nothing.
    pub fn set_limit(&mut self, participant: u32, limit: u32) -> Result<(), Refusal>
        ensures answer { refused_with result ≡ refused_unless (settable (sheet_book self.old) participant limit) }
        ensures after { sheet_book self.new ≡ limited (sheet_book self.old) participant limit }
    {
        self.lines.open(participant, Line::new(limit)?)
    }

    /// The same line for every participant.
    // Apart from `new`, whose own text has the figures that it opens with.
    fn with_line(line: Line) -> LimitSheet
        ensures { sheet_book result ≡ uniform line }
    {
        LimitSheet {
            lines: Accounts::each(line),
        }
    }
}

#[tactic(auto, unfolding(crate::specs::Sheet::sheet_book))]
impl Clearing for LimitSheet {
    ghost book = { sheet_book };

    ghost makeup = { λ s. plain (sheet_book s) };

    ghost shows = { Prim.search rules };

    ghost bounded = { unfold sheet_book in Prim.search rules };

    ghost strangers_free = { unfold sheet_book in Prim.search rules };

    ghost strangers_held = { unfold sheet_book in Prim.search rules };

    fn free(&self, participant: u32) -> u32 {
        self.lines.free(participant)
    }

    fn held(&self, participant: u32) -> u32 {
        self.lines.held(participant)
    }

    fn reserve(&mut self, participant: u32, lots: u32) -> bool {
        self.lines.reserve(participant, lots)
    }

    fn release(&mut self, participant: u32, lots: u32) -> bool {
        self.lines.release(participant, lots)
    }
}
