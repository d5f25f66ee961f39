//! A purse as an account: money is taken first, and securities are refilled first.
ghost use Rattle.std.specs.Prelude.{◌≡◌};
ghost use Rattle.clearing.specs.Purses.{none_purse, purse_free, purse_held, purse_holding, purse_letting_go};
ghost use Rattle.std.proofs.Common.{rules};

use crate::accounts::Account;
use crate::line::Line;
use crate::purse::Purse;

// Apart from `Purse`: what the clauses cite names the struct, which has a ghost field.
impl Account for Purse {
    ghost none = { none_purse };

    ghost free_lots = { purse_free };

    ghost held_lots = { purse_held };

    ghost holding = { purse_holding };

    ghost letting_go = { purse_letting_go };

    ghost holding_free = { Prim.search rules };

    ghost holding_held = { Prim.search rules };

    ghost letting_go_free = { Prim.search rules };

    ghost letting_go_held = { Prim.search rules };

    fn empty() -> Purse {
        Purse {
            money: Line::empty(),
            securities: Line::empty(),
        }
    }

    fn free(self) -> u32 {
        self.money.free() + self.securities.free()
    }

    fn held(self) -> u32 {
        self.money.held + self.securities.held
    }

    fn hold(self, lots: u32) -> Purse {
        let from_money = lots.min(self.money.free());
        Purse {
            money: self.money.hold(from_money),
            securities: self.securities.hold(lots - from_money),
        }
    }

    fn let_go(self, lots: u32) -> Purse {
        let to_securities = lots.min(self.securities.held);
        Purse {
            money: self.money.let_go(lots - to_securities),
            securities: self.securities.let_go(to_securities),
        }
    }
}
