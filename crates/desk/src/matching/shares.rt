//! The shares of a round, by place.
ghost use Rattle.std.specs.Prelude.{◌≡◌, ℕ, ◌^◌, ◌<◌, length, sum, slice_index, slice_index_or};
ghost use Rattle.std.specs.List.{All};
ghost use Rattle.model.specs.Rounds.{after_share, each_from, share_at};
ghost use Rattle.desk.specs.Matching.{SharesFit};

use crate::matching::one_order::after_share;
use orders::Order;

/// Adds the shares up by place.
pub(super) fn spread(places: &[u8], shares: &[u32], by_place: &mut [u32])
    requires long { length shares.now ≡ length places.now }
    requires places { All (λ place. place < length by_place.old) places.now }
    requires fits { sum shares.now < 2 ^ 32 }
    requires empty { (k : ℕ) → slice_index_or by_place.old k 0 ≡ 0 }
    ensures { (k : ℕ) → slice_index_or by_place.new k 0 ≡ share_at k places.now shares.now }
{
    for (&place, &share) in places.iter().zip(shares) {
        by_place[usize::from(place)] += share;
    }
}

/// Gives each order its share.
pub(super) fn conclude(shares: &[u32], orders: &mut [Order])
    requires fit { SharesFit shares.now orders.old }
    requires long { length shares.now ≡ length orders.old }
    ensures { orders.new ≡ each_from (λ k o. after_share (slice_index shares.now k) o) 0 orders.old }
{
    // With `iter_mut().zip(shares)` the proof did not close: of what such a loop wrote, nothing is known after it.
    for (k, order) in orders.iter_mut().enumerate() {
        *order = after_share(order, shares[k]);
    }
}
