//! The queue after a round.
ghost use Rattle.std.specs.Prelude.{◌≡◌, ◌<◌, ◌≤◌, length};
ghost use Rattle.std.specs.List.{All};
ghost use Rattle.desk.specs.Matching.{SharesFit, requeued};

use crate::matching::one_order::refills;
use arrayvec::ArrayVec;
use model::MOST_ORDERS;
use orders::Order;

/// Sends the orders that show lots again after their shares to the end of the queue.
pub(super) fn requeue(shares: &[u32], orders: &[Order], queue: &mut [u8])
    requires few { length queue.old ≤ 128 }
    requires places { All (λ place. place < length orders.now) queue.old }
    requires fit { SharesFit shares.now orders.now }
    requires long { length shares.now ≡ length orders.now }
    ensures { queue.new ≡ requeued shares.now orders.now queue.old }
{
    let mut kept: ArrayVec<u8, MOST_ORDERS> = ArrayVec::new();
    let mut again: ArrayVec<u8, MOST_ORDERS> = ArrayVec::new();
    for &place in queue.iter() {
        let at = usize::from(place);
        if refills(&orders[at], shares[at]) {
            again.push(place);
        } else {
            kept.push(place);
        }
    }
    let (front, back) = queue.split_at_mut(kept.len());
    front.copy_from_slice(&kept);
    back.copy_from_slice(&again);
}
