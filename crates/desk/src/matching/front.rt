//! The orders at the best rate.
ghost use Rattle.std.specs.Prelude.{◌≡◌, ◌<◌, ◌≤◌, length};
ghost use Rattle.std.specs.List.{All};
ghost use Rattle.model.specs.Market.{visible_at};
ghost use Rattle.desk.specs.Matching.{places_at};

use crate::matching::Entering;
use arrayvec::ArrayVec;
use orders::{Order, Rate};

impl Entering {
    /// The places of the orders that it may meet at this rate, in queue order.
    pub(super) fn places_at(&self, rate: Rate, orders: &[Order], queue: &[u8]) -> ArrayVec<u8, 64>
        requires places { All (λ place. place < length orders.now) queue.now }
        requires room { length (places_at self.now.settings self.now.terms rate.hundredths orders.now queue.now) ≤ 64 }
        ensures { result.items ≡ places_at self.now.settings self.now.terms rate.hundredths orders.now queue.now }
    {
        let mut places = ArrayVec::new();
        for &place in queue {
            if self.meets_at(rate, &orders[usize::from(place)]) {
                places.push(place);
            }
        }
        places
    }
}

/// The visible sums of the orders at these places.
pub(super) fn visible_at(orders: &[Order], places: &[u8]) -> ArrayVec<u32, 64>
    requires places { All (λ place. place < length orders.now) places.now }
    requires room { length places.now ≤ 64 }
    ensures { result.items ≡ visible_at orders.now places.now }
{
    let mut sums = ArrayVec::new();
    for &place in places {
        sums.push(orders[usize::from(place)].visible);
    }
    sums
}
