//! Orders taken out of the day, by their owners or by its close.
// Soundness is no invariant of an order, whose fields take any values. So the steps on one order require it.
ghost use Rattle.std.specs.Prelude.{◌≡◌, List};
ghost use Rattle.clearing.specs.Book.{released};
ghost use Rattle.clearing.specs.Makeup.{released_in};
ghost use Rattle.desk.specs.Inside.{withdraw_inside};
ghost use Rattle.desk.specs.Worlds.{world_of};
ghost use Rattle.model.specs.Sound.{SoundOrder};
ghost use Rattle.model.specs.Market.{lots_of};
ghost use Rattle.model.specs.States.{day_of};
ghost use Rattle.model.specs.Withdraw.{taken_out, withdrawing};
ghost use Rattle.orders.specs.Answers.{withdraw_answer};
ghost use Rattle.orders.specs.declared.kinds.Row.{Row};

use crate::cover::release_lots;
use crate::desk::Desk;
use crate::places::put_order;
use clearing::Clearing;
use orders::{Event, Order, Refusal, Withdrawn, next_state};

/// The order with all its lots withdrawn.
fn taken_out(order: &Order, event: Event) -> Order
    requires { SoundOrder order.now }
    ensures { result ≡ taken_out event order.now }
{
    Order {
        state: next_state(order.state, event),
        visible: 0,
        hidden: 0,
        withdrawn: order.withdrawn + (order.visible + order.hidden),
        ..*order
    }
}

/// Takes an order out, releases its lots, and says how many they were.
pub(crate) fn take_out<C: Clearing>(order: &mut Order, clearing: &mut C, event: Event) -> u32
    requires { SoundOrder order.old }
    ensures lots { result ≡ lots_of order.old }
    ensures order { order.new ≡ taken_out event order.old }
    ensures cover { C.Clearing.book clearing.new ≡ released (C.Clearing.book clearing.old) order.old.owner (lots_of order.old) }
    ensures inside { C.Clearing.makeup clearing.new ≡ released_in (C.Clearing.makeup clearing.old) order.old.owner (lots_of order.old) }
{
    let lots = order.visible + order.hidden;
    *order = taken_out(order, event);
    release_lots(clearing, order.owner, lots);
    lots
}

impl Desk {
    /// Takes an order out at its owner's word, and releases its lots.
    pub fn withdraw<C: Clearing>(
        &mut self,
        clearing: &mut C,
        number: u32,
        participant: u32,
    ) -> Result<Withdrawn, Refusal>
        ensures outcome { (register : List Row) → withdrawing number participant (world_of self.old.state register (C.Clearing.book clearing.old)) ≡ record { answer = withdraw_answer result; world = world_of self.new.state register (C.Clearing.book clearing.new) } }
        ensures inside { C.Clearing.makeup clearing.new ≡ withdraw_inside number participant (day_of self.old.state) (C.Clearing.makeup clearing.old) }
    {
        let place = self.judge_withdraw(number, participant)?;
        let mut order = self.order_at(place);
        let lots = take_out(&mut order, clearing, Event::Withdrawal);
        put_order(&mut self.state, place, order);
        Ok(Withdrawn { lots })
    }
}
