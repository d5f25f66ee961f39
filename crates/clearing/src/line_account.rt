//! A line as an account.
ghost use Rattle.std.specs.Prelude.{◌≡◌};
ghost use Rattle.clearing.specs.Lines.{none, line_free, line_held, line_holding, line_letting_go};
ghost use Rattle.std.proofs.Common.{rules};

use crate::accounts::Account;
use crate::line::Line;

// Apart from `Line`: what the clauses cite names the struct, which has a ghost field.
impl Account for Line {
    ghost none = { none };

    ghost free_lots = { line_free };

    ghost held_lots = { line_held };

    ghost holding = { line_holding };

    ghost letting_go = { line_letting_go };

    ghost holding_free = { Prim.search rules };

    ghost holding_held = { Prim.search rules };

    ghost letting_go_free = { Prim.search rules };

    ghost letting_go_held = { Prim.search rules };

    fn empty() -> Line {
        Line { limit: 0, held: 0 }
    }

    fn free(self) -> u32 {
        self.limit - self.held
    }

    fn held(self) -> u32 {
        self.held
    }

    fn hold(self, lots: u32) -> Line {
        Line {
            limit: self.limit,
            held: self.held + lots,
        }
    }

    fn let_go(self, lots: u32) -> Line {
        Line {
            limit: self.limit,
            held: self.held - lots,
        }
    }
}
