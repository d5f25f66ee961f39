//! Waiting orders that enter when their time has come.
ghost use Rattle.std.specs.Prelude.{◌≡◌, ◌+◌, ◌<◌, ◌≤◌, length};
ghost use Rattle.clearing.specs.Makeup.{released_in};
ghost use Rattle.desk.specs.Inside.{withdrawn_late};
ghost use Rattle.desk.specs.Worlds.{order_of, world_of};
ghost use Rattle.model.specs.Clock.{activated, entered_late};
ghost use Rattle.model.specs.Place.{opposite};
ghost use Rattle.model.specs.Sound.{SoundOrder};
ghost use Rattle.model.specs.States.{day_of};
ghost use Rattle.orders.specs.declared.kinds.Direction.TheVariants.{Deposit};
ghost use Rattle.orders.specs.declared.kinds.State.TheVariants.{Waiting};

use crate::cover::release_lots;
use crate::desk::Desk;
use crate::entry::enter;
use crate::places::put_order;
use crate::withdrawal::take_out;
use clearing::Clearing;
use orders::{Event, Order, Row, next_state};
use sharing::SharingRule;

/// A waiting order after it was activated, its rounds left so much of it, and that was withdrawn.
fn entered_late(order: &Order, left: u32) -> Order
    requires sound { SoundOrder order.now }
    requires waits { order.now.state ≡ Waiting }
    requires within { left ≤ order.now.terms.sum }
    ensures { result ≡ entered_late order.now left }
{
    let active = next_state(order.state, Event::Activation);
    let met = next_state(active, Event::Conclusion { left });
    Order {
        state: next_state(met, Event::Withdrawal),
        visible: 0,
        hidden: 0,
        withdrawn: order.withdrawn + left,
        ..*order
    }
}

impl Desk {
    /// Activates a waiting order: it is withdrawn whole if its volume test fails, and else meets the queue, and what is left of it is withdrawn. Says how many lots it concluded.
    pub(crate) fn activate<R: SharingRule, C: Clearing>(
        &mut self,
        rule: &R,
        register: &mut [Row],
        clearing: &mut C,
        place: usize,
    ) -> u32
        requires stands { place < length (day_of self.old.state).orders }
        requires waits { (order_of self.old.state place).state ≡ Waiting }
        requires length { length register.old ≡ self.old.state.settings.rows }
        requires room { self.old.state.used + opposite Deposit (day_of self.old.state).orders ≤ length register.old }
        ensures lots { result ≡ (activated (R.SharingRule.shares rule.now) place (world_of self.old.state register.old (C.Clearing.book clearing.old))).lots }
        ensures world { world_of self.new.state register.new (C.Clearing.book clearing.new) ≡ (activated (R.SharingRule.shares rule.now) place (world_of self.old.state register.old (C.Clearing.book clearing.old))).world }
        ensures inside { C.Clearing.makeup clearing.new ≡ released_in (C.Clearing.makeup clearing.old) (order_of self.old.state place).owner (withdrawn_late (R.SharingRule.shares rule.now) place (world_of self.old.state register.old (C.Clearing.book clearing.old))) }
        ensures bound { result ≤ 1000000 }
    {
        let mut order = self.order_at(place);
        if self.volume_fails(&order.terms) {
            take_out(&mut order, clearing, Event::Withdrawal);
            put_order(&mut self.state, place, order);
            return 0;
        }
        let left = enter(
            &mut self.state,
            rule,
            register,
            &order.terms,
            // `as`, and no `try_from`, which could not fail: there are at most 128.
            place as u32 + 1,
        );
        put_order(&mut self.state, place, entered_late(&order, left));
        release_lots(clearing, order.owner, left);
        order.terms.sum - left
    }
}
