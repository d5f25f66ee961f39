//! The orders that an entering one may meet, and their best rate.
ghost use Rattle.std.specs.Prelude.{◌≡◌, ◌<◌, [], length, option_map};
ghost use Rattle.std.specs.List.{All};
ghost use Rattle.model.specs.Market.{better, offers, rates_at};
ghost use Rattle.desk.specs.Matching.{at_rate, best_of, market_of};

use crate::matching::Entering;
use crate::standing::meets;
use orders::{Direction, Order, Rate, row_rate};

/// The better of two rates for an order that enters: the higher for a deposit, the lower for a repo order.
// A function, and no `max` and `min` at the chain's end: so the chain is one for both directions.
fn better(direction: Direction, a: Rate, b: Rate) -> Rate
    ensures { result.hundredths ≡ better direction a.hundredths b.hundredths }
{
    match direction {
        Direction::Deposit => a.max(b),
        Direction::Repo => a.min(b),
    }
}

impl Entering {
    /// Whether it may meet a resting order, at this rate.
    pub(super) fn meets_at(&self, rate: Rate, resting: &Order) -> bool
        ensures { result ≡ at_rate self.now.settings self.now.terms rate.hundredths resting.now }
    {
        meets(&self.terms, resting) && row_rate(&self.settings, &resting.terms) == rate
    }

    /// The best rate of the orders that it may meet.
    pub(super) fn best_rate(&self, orders: &[Order], queue: &[u8]) -> Option<Rate>
        requires { All (λ place. place < length orders.now) queue.now }
        ensures { option_map (λ rate. rate.hundredths) result ≡ best_of self.now.terms.direction (rates_at self.now.settings orders.now (offers self.now.terms (market_of orders.now queue.now []))) }
    {
        queue
            .iter()
            .map(|&place| &orders[usize::from(place)])
            .filter(|resting| meets(&self.terms, resting))
            .map(|resting| row_rate(&self.settings, &resting.terms))
            .reduce(|a, b| better(self.terms.direction, a, b))
    }
}
