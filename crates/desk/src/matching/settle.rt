//! What the shares of a round do to the orders, the queue and the rows.
// Shares stand beside their places: a sharing rule writes them into an array of their own.
ghost use Rattle.std.specs.Prelude.{◌≡◌, ◌+◌, ◌^◌, ◌<◌, ◌≤◌, length, take, sum_by, sum};
ghost use Rattle.std.specs.List.{All};
ghost use Rattle.model.specs.Rounds.{after_round, share_at};
ghost use Rattle.model.specs.Rows.{add_rows};
ghost use Rattle.desk.specs.Matching.{Fit, Stands, market_of};

use crate::matching::requeue::requeue;
use crate::matching::shares::{conclude, spread};
use crate::matching::{Entering, Rows};
use model::MOST_ORDERS;
use orders::Order;

impl Entering {
    /// Settles a round: each order gets its share, those that show lots again go to the end of the queue, and the rows grow.
    pub(super) fn settle(
        &self,
        places: &[u8],
        shares: &[u32],
        orders: &mut [Order],
        queue: &mut [u8],
        rows: &mut Rows,
    )
        requires few { length orders.old ≤ 128 }
        requires long { length queue.old ≡ length orders.old }
        requires queued { All (λ place. place < length orders.old) queue.old }
        requires listed { All (λ place. place < length orders.old) places.now }
        requires each { length shares.now ≡ length places.now }
        requires fit { Fit (λ k. share_at k places.now shares.now) orders.old }
        requires room { length (add_rows self.now.settings self.now.terms.direction self.now.number orders.old places.now shares.now (take rows.old.made rows.old.all.now)) ≤ length rows.old.all.now }
        requires fits { sum_by (λ r. r.lots) (take rows.old.made rows.old.all.now) + sum shares.now < 2 ^ 32 }
        ensures same { rows.new.all.ghost_name ≡ rows.old.all.ghost_name }
        ensures market { Stands (after_round self.now.settings self.now.terms self.now.number places.now shares.now (market_of orders.old queue.old (take rows.old.made rows.old.all.now))) orders.new queue.new rows.old.all.now rows.new.all.now rows.new.made }
    {
        // An array cut to the orders, on no heap; a vector would be filled with zeros, cut and lent as this same slice.
        let mut buffer = [0; MOST_ORDERS];
        let by_place = &mut buffer[..orders.len()];
        spread(places, shares, by_place);
        requeue(by_place, orders, queue);
        self.add_rows(orders, places, shares, rows);
        conclude(by_place, orders);
    }
}
