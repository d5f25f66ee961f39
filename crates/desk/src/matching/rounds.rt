//! All rounds of an order that enters.
ghost use Rattle.std.specs.Prelude.{◌≡◌, ◌≤◌, []};
ghost use Rattle.model.specs.Rounds.{meeting};
ghost use Rattle.desk.specs.Matching.{EntryReady, Stands, market_of};

use crate::matching::{Entering, Rows};
use orders::Order;
use sharing::SharingRule;

impl Entering {
    /// Lets it meet the queue: holds rounds until nothing is left of it, or nothing that it may meet. Returns the lots left of it.
    pub(crate) fn meet<R: SharingRule>(
        &self,
        rule: &R,
        orders: &mut [Order],
        queue: &mut [u8],
        rows: &mut Rows,
    ) -> u32
        requires ready { EntryReady self.now.terms (market_of orders.old queue.old []) rows.old.all.now }
        requires none { rows.old.made ≡ 0 }
        ensures same { rows.new.all.ghost_name ≡ rows.old.all.ghost_name }
        ensures left { result ≡ (meeting (R.SharingRule.shares rule.now) self.now.settings self.now.terms self.now.number (market_of orders.old queue.old [])).left }
        ensures market { Stands (meeting (R.SharingRule.shares rule.now) self.now.settings self.now.terms self.now.number (market_of orders.old queue.old [])).market orders.new queue.new rows.old.all.now rows.new.all.now rows.new.made }
        ensures within { result ≤ self.now.terms.sum }
    {
        let mut left = self.terms.sum;
        while left > 0 {
            let Some(rate) = self.best_rate(orders, queue) else {
                break;
            };
            left -= self.hold_round(rule, left, rate, orders, queue, rows);
        }
        left
    }
}
