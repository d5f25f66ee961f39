//! One round.
ghost use Rattle.std.specs.Prelude.{◌≡◌, [], take, Some};
ghost use Rattle.model.specs.Market.{offers, rates_at};
ghost use Rattle.model.specs.Rounds.{round, round_lots};
ghost use Rattle.desk.specs.Matching.{RoundReady, Stands, best_of, market_of};

use crate::matching::divide::{divide, lots_to_divide};
use crate::matching::front::visible_at;
use crate::matching::{Entering, Rows};
use orders::{Order, Rate};
use sharing::SharingRule;

impl Entering {
    /// Holds a round at the best rate. Returns the lots that it divided.
    pub(super) fn hold_round<R: SharingRule>(
        &self,
        rule: &R,
        left: u32,
        rate: Rate,
        orders: &mut [Order],
        queue: &mut [u8],
        rows: &mut Rows,
    ) -> u32
        requires ready { RoundReady (R.SharingRule.shares rule.now) self.now.settings self.now.terms self.now.number left (market_of orders.old queue.old (take rows.old.made rows.old.all.now)) rows.old.all.now }
        requires best { Some rate.hundredths ≡ best_of self.now.terms.direction (rates_at self.now.settings orders.old (offers self.now.terms (market_of orders.old queue.old []))) }
        ensures same { rows.new.all.ghost_name ≡ rows.old.all.ghost_name }
        ensures lots { result ≡ round_lots self.now.settings self.now.terms left (market_of orders.old queue.old (take rows.old.made rows.old.all.now)) }
        ensures market { Stands (round (R.SharingRule.shares rule.now) self.now.settings self.now.terms self.now.number left (market_of orders.old queue.old (take rows.old.made rows.old.all.now))) orders.new queue.new rows.old.all.now rows.new.all.now rows.new.made }
    {
        let places = self.places_at(rate, orders, queue);
        let sums = visible_at(orders, &places);
        let lots = lots_to_divide(left, &sums);
        let shares = divide(rule, &sums, lots);
        self.settle(&places, &shares, orders, queue, rows);
        lots
    }
}
