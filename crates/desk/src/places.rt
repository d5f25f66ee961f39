//! Orders by their places in a desk.
ghost use Rattle.std.specs.Prelude.{◌≡◌, ◌<◌, ◌≤◌, length};
ghost use Rattle.desk.specs.Kept.{KeptOrders};
ghost use Rattle.desk.specs.Worlds.{order_of};
ghost use Rattle.model.specs.Sound.{SoundOrder};
ghost use Rattle.model.specs.States.{day_of};
ghost use Rattle.model.specs.Withdraw.{with_order_at};

use crate::desk::Desk;
use model::DayState;
use orders::Order;

/// Puts another order at a place.
pub(crate) fn put_order(state: &mut DayState, place: usize, order: Order)
    requires few { state.old.count ≤ 128 }
    requires stands { place < length (day_of state.old).orders }
    ensures day { day_of state.new ≡ with_order_at (day_of state.old) place order }
    ensures count { state.new.count ≡ state.old.count }
    ensures orders { length (day_of state.new).orders ≡ length (day_of state.old).orders }
{
    state.orders[place] = order;
}

impl Desk {
    /// The registered orders.
    pub(crate) fn orders(&self) -> &[Order]
        ensures value { result.now ≡ (day_of self.now.state).orders }
        ensures kept { KeptOrders result.now }
    {
        &self.state.orders[..self.state.count]
    }

    /// The registered order at a place.
    pub(crate) fn order_at(&self, place: usize) -> Order
        requires { place < length (day_of self.now.state).orders }
        ensures value { result ≡ order_of self.now.state place }
        ensures sound { SoundOrder result }
        ensures few { place < 128 }
    {
        self.orders()[place]
    }
}
