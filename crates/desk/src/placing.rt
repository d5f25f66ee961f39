//! Orders that are placed: registered, covered, and met with the queue unless they wait.
// The two steps on the bare state are lawful only for an order that was judged, so they require what they need of it.
ghost use Rattle.std.specs.Prelude.{◌≡◌, ◌+◌, ◌-◌, ◌<◌, ◌≤◌, length};
ghost use Rattle.desk.specs.Entry.{day_met, day_with, meeting_in};
ghost use Rattle.desk.specs.Inside.{place_inside};
ghost use Rattle.desk.specs.Kept.{Sound};
ghost use Rattle.desk.specs.Worlds.{world_of};
ghost use Rattle.model.specs.Days.{written};
ghost use Rattle.model.specs.Place.{entered, next_number, opposite, placing, waiting, withdrawn_of};
ghost use Rattle.model.specs.States.{day_of};
ghost use Rattle.orders.specs.Answers.{place_answer};

use crate::cover::{release_lots, reserve_lots};
use crate::desk::Desk;
use crate::entry::enter;
use clearing::Clearing;
use model::DayState;
use orders::{
    Event, Order, Placed, Refusal, Remainder, Row, State, Terms, next_state, visible_sum, waits,
};
use sharing::SharingRule;

/// Registers one more order, last in the queue.
fn push_order(state: &mut DayState, order: Order)
    requires { state.old.count < 128 }
    ensures day { day_of state.new ≡ day_with (day_of state.old) order }
    ensures few { state.new.count ≤ 128 }
    ensures long { length (day_of state.new).orders ≡ state.new.count }
{
    // `as`, and no `try_from`, which could not fail: there is room for one more of 128.
    state.queue[state.count] = state.count as u8;
    state.orders[state.count] = order;
    state.count += 1;
}

/// An order that is to be placed: its number, its owner, and what it asks.
#[derive(Clone, Copy)]
struct Newcomer {
    number: u32,
    owner: u32,
    terms: Terms,
}

impl Newcomer {
    /// The order while it waits: it hides its whole sum.
    fn waiting(&self) -> Order
        ensures { result ≡ waiting self.now.number self.now.owner self.now.terms }
    {
        Order {
            number: self.number,
            owner: self.owner,
            terms: self.terms,
            state: State::Waiting,
            visible: 0,
            hidden: self.terms.sum,
            withdrawn: 0,
        }
    }

    /// The remainder that is withdrawn at once.
    fn withdrawn_of(&self, left: u32) -> u32
        ensures { result ≡ withdrawn_of self.now.terms left }
    {
        match self.terms.remainder {
            Remainder::Queue => 0,
            Remainder::Withdraw | Remainder::FillOrReject => left,
        }
    }

    /// The order after its rounds left so much of it: that rests, or is withdrawn.
    fn entered(&self, left: u32) -> Order
        ensures { result ≡ entered self.now.number self.now.owner self.now.terms left }
    {
        let terms = self.terms;
        let withdrawn = self.withdrawn_of(left);
        let rest = left - withdrawn;
        let visible = visible_sum(terms.sum, terms.percent).min(rest);
        let met = next_state(State::Active, Event::Conclusion { left });
        Order {
            number: self.number,
            owner: self.owner,
            terms,
            state: match terms.remainder {
                Remainder::Queue => met,
                Remainder::Withdraw | Remainder::FillOrReject => next_state(met, Event::Withdrawal),
            },
            visible,
            hidden: rest - visible,
            withdrawn,
        }
    }

    /// What is answered once it met the queue: its number, and the lots that it concluded.
    fn placed(&self, left: u32) -> Placed
        requires { left ≤ self.now.terms.sum }
        ensures number { result.number ≡ self.now.number }
        ensures lots { result.lots ≡ self.now.terms.sum - left }
    {
        Placed {
            number: self.number,
            lots: self.terms.sum - left,
        }
    }
}

/// Lets an order meet the queue, and registers it. Returns the lots left of it.
fn place_meeting<R: SharingRule>(
    state: &mut DayState,
    rule: &R,
    register: &mut [Row],
    newcomer: &Newcomer,
) -> u32
    requires sound { Sound state.old }
    requires few { state.old.count < 128 }
    requires most { newcomer.now.terms.sum ≤ 1000000 }
    requires room { state.old.used + opposite newcomer.now.terms.direction (day_of state.old).orders ≤ length register.old }
    ensures left { result ≡ (meeting_in (R.SharingRule.shares rule.now) (day_of state.old) newcomer.now.terms newcomer.now.number).left }
    ensures day { day_of state.new ≡ day_with (day_met (day_of state.old) (meeting_in (R.SharingRule.shares rule.now) (day_of state.old) newcomer.now.terms newcomer.now.number)) (entered newcomer.now.number newcomer.now.owner newcomer.now.terms result) }
    ensures few { state.new.count ≤ 128 }
    ensures long { length (day_of state.new).orders ≡ state.new.count }
    ensures register { register.new ≡ written register.old state.old.used (meeting_in (R.SharingRule.shares rule.now) (day_of state.old) newcomer.now.terms newcomer.now.number).market.rows }
    ensures within { result ≤ newcomer.now.terms.sum }
{
    let left = enter(state, rule, register, &newcomer.terms, newcomer.number);
    push_order(state, newcomer.entered(left));
    left
}

impl Desk {
    /// The number of the next order.
    fn next_number(&self) -> u32
        ensures { result ≡ next_number (day_of self.now.state) }
    {
        // `as`, and no `try_from`, which could not fail: there are at most 128.
        self.orders().len() as u32 + 1
    }

    /// Places an order: it is judged, its sum is reserved, it waits or meets the queue, and a remainder that does not rest is released.
    pub fn place<R: SharingRule, C: Clearing>(
        &mut self,
        rule: &R,
        register: &mut [Row],
        clearing: &mut C,
        participant: u32,
        terms: &Terms,
    ) -> Result<Placed, Refusal>
        ensures outcome { placing (R.SharingRule.shares rule.now) participant terms.now (world_of self.old.state register.old (C.Clearing.book clearing.old)) ≡ record { answer = place_answer result; world = world_of self.new.state register.new (C.Clearing.book clearing.new) } }
        ensures inside { C.Clearing.makeup clearing.new ≡ place_inside (R.SharingRule.shares rule.now) participant terms.now (world_of self.old.state register.old (C.Clearing.book clearing.old)) (C.Clearing.makeup clearing.old) }
    {
        let newcomer = Newcomer {
            number: self.next_number(),
            owner: participant,
            terms: *terms,
        };
        self.judge_place(register.len(), participant, terms)?;
        if !reserve_lots(clearing, participant, terms.sum) {
            return Err(Refusal::Cover);
        }
        if waits(self.state.settings.mode(), terms) {
            push_order(&mut self.state, newcomer.waiting());
            return Ok(Placed {
                number: newcomer.number,
                lots: 0,
            });
        }
        let left = place_meeting(&mut self.state, rule, register, &newcomer);
        release_lots(clearing, participant, newcomer.withdrawn_of(left));
        Ok(newcomer.placed(left))
    }
}
