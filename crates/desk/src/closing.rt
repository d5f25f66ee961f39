//! The close of a day.
ghost use Rattle.std.specs.Prelude.{◌≡◌, ◌≤◌, List, length, map};
ghost use Rattle.clearing.specs.Book.{released};
ghost use Rattle.desk.specs.Inside.{close_inside, ended_inside};
ghost use Rattle.desk.specs.Kept.{KeptOrders};
ghost use Rattle.desk.specs.Worlds.{world_of};
ghost use Rattle.model.specs.Close.{closing, released_all};
ghost use Rattle.model.specs.Market.{lots_of};
ghost use Rattle.model.specs.Sound.{SoundOrder};
ghost use Rattle.model.specs.States.{day_of};
ghost use Rattle.model.specs.Withdraw.{taken_out};
ghost use Rattle.orders.specs.declared.kinds.Row.{Row};
ghost use Rattle.orders.specs.declared.lifecycle.Event.TheVariants.{Close};

use crate::desk::Desk;
use crate::withdrawal::take_out;
use clearing::Clearing;
use model::DayState;
use orders::{Event, Order, State};

/// Ends an order, and releases its lots. A done order is left as it is.
fn end_order<C: Clearing>(order: &mut Order, clearing: &mut C)
    requires { SoundOrder order.old }
    ensures order { order.new ≡ taken_out Close order.old }
    ensures cover { C.Clearing.book clearing.new ≡ released (C.Clearing.book clearing.old) order.old.owner (lots_of order.old) }
    ensures inside { C.Clearing.makeup clearing.new ≡ ended_inside order.old (C.Clearing.makeup clearing.old) }
{
    if order.state == State::Done {
        return;
    }
    take_out(order, clearing, Event::Close);
}

/// Ends some orders, one after another, and releases their lots.
fn end_each<C: Clearing>(orders: &mut [Order], clearing: &mut C)
    requires { KeptOrders orders.old }
    ensures orders { orders.new ≡ map (taken_out Close) orders.old }
    ensures cover { C.Clearing.book clearing.new ≡ released_all (C.Clearing.book clearing.old) orders.old }
    ensures inside { C.Clearing.makeup clearing.new ≡ close_inside orders.old (C.Clearing.makeup clearing.old) }
{
    for order in orders.iter_mut() {
        end_order(order, clearing);
    }
}

/// Ends the orders of a day that are not done, by rising number, and releases their lots.
// Apart from `Desk::close`: a part of the state's table can be lent from the state, and not from the desk that it lies in.
fn close_orders<C: Clearing>(state: &mut DayState, clearing: &mut C)
    requires few { state.old.count ≤ 128 }
    requires long { length (day_of state.old).orders ≡ state.old.count }
    requires kept { KeptOrders (day_of state.old).orders }
    ensures world { (register : List Row) → closing (world_of state.old register (C.Clearing.book clearing.old)) ≡ world_of state.new register (C.Clearing.book clearing.new) }
    ensures inside { C.Clearing.makeup clearing.new ≡ close_inside (day_of state.old).orders (C.Clearing.makeup clearing.old) }
    ensures count { state.new.count ≡ state.old.count }
    ensures orders { length (day_of state.new).orders ≡ length (day_of state.old).orders }
{
    end_each(&mut state.orders[..state.count], clearing);
}

impl Desk {
    /// Ends every order that is not done, by rising number, and releases its lots.
    pub fn close<C: Clearing>(&mut self, clearing: &mut C)
        ensures world { (register : List Row) → closing (world_of self.old.state register (C.Clearing.book clearing.old)) ≡ world_of self.new.state register (C.Clearing.book clearing.new) }
        ensures inside { C.Clearing.makeup clearing.new ≡ close_inside (day_of self.old.state).orders (C.Clearing.makeup clearing.old) }
    {
        close_orders(&mut self.state, clearing);
    }
}
