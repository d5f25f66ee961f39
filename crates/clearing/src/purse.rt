//! One participant's two pots.
ghost use Rattle.std.specs.Prelude.{◌≡◌, ◌+◌, ◌≤◌, is_ok, IfOk, nat_le};

use crate::cover::Refusal;
use crate::line::{Line, MOST};

/// What each pot was given is its limit, what was taken from it is held.
#[derive(Clone, Copy, Debug, PartialEq, Eq)]
pub(crate) struct Purse {
    pub(crate) money: Line,
    pub(crate) securities: Line,
    ghost within: { money.limit + securities.limit ≤ 1000000000 },
}

impl Purse {
    /// Two pots from which nothing is taken, if they are given at most 1,000,000,000 together.
    pub(crate) fn new(money: u32, securities: u32) -> Result<Purse, Refusal>
        ensures fits { is_ok result ≡ nat_le (money + securities) 1000000000 }
        ensures money { IfOk result (λ purse. (purse.money.limit ≡ money) × (purse.money.held ≡ 0)) }
        ensures securities { IfOk result (λ purse. (purse.securities.limit ≡ securities) × (purse.securities.held ≡ 0)) }
    {
        let (money, securities) = (Line::new(money)?, Line::new(securities)?);
        if money.limit + securities.limit > MOST {
            return Err(Refusal::FigureNotSettable);
        }
        Ok(Purse { money, securities })
    }
}
