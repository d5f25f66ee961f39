//! An open day.
ghost use Rattle.std.specs.Prelude.{List, ◌≡◌, ◌≤◌, length};
ghost use Rattle.desk.specs.Depths.{Reported};
ghost use Rattle.desk.specs.Inside.{clock_inside, close_inside, place_inside, withdraw_inside};
ghost use Rattle.desk.specs.Statements.{numbered};
ghost use Rattle.desk.specs.Worlds.{world_of};
ghost use Rattle.model.specs.Calls.{clock, place, withdraw};
ghost use Rattle.model.specs.Clock.{clocking};
ghost use Rattle.model.specs.Close.{closing};
ghost use Rattle.model.specs.Days.{opened};
ghost use Rattle.model.specs.Depth.{reporting};
ghost use Rattle.model.specs.Place.{placing};
ghost use Rattle.model.specs.Reach.{Reached};
ghost use Rattle.model.specs.Runs.{Closes, Extends};
ghost use Rattle.model.specs.States.{day_of};
ghost use Rattle.model.specs.Withdraw.{withdrawing};
ghost use Rattle.orders.specs.Answers.{clock_answer, place_answer, withdraw_answer};

use crate::closed_day::ClosedDay;
use clearing::Clearing;
use desk::Desk;
use orders::{
    Clocked, Code, Direction, Order, Placed, Rate, Refusal, Row, Settings, Terms, Withdrawn,
};
use sharing::SharingRule;

/// A day in which orders are placed. Some list of calls made it of a newly opened one.
#[derive(Drop)]
pub struct OpenDay {
    desk: Desk,
    ghost reached: { Reached (day_of desk.state) },
}

// Its questions are the desk's, by name: a `Deref` to the desk would give an open day a statement too.
impl OpenDay {
    /// Opens a day: no order, every register row free.
    pub fn open(settings: Settings) -> OpenDay
        ensures { day_of result.desk.state ≡ opened settings }
    {
        let desk = Desk::open(settings);
        OpenDay { desk }
    }

    /// Places an order: it is judged, its sum is reserved, it waits or meets the queue, and a remainder that does not rest is released.
    pub fn place<R: SharingRule, C: Clearing>(
        &mut self,
        rule: &R,
        register: &mut [Row],
        clearing: &mut C,
        participant: u32,
        terms: &Terms,
    ) -> Result<Placed, Refusal>
        ensures outcome { placing (R.SharingRule.shares rule.now) participant terms.now (world_of self.old.desk.state register.old (C.Clearing.book clearing.old)) ≡ record { answer = place_answer result; world = world_of self.new.desk.state register.new (C.Clearing.book clearing.new) } }
        ensures inside { C.Clearing.makeup clearing.new ≡ place_inside (R.SharingRule.shares rule.now) participant terms.now (world_of self.old.desk.state register.old (C.Clearing.book clearing.old)) (C.Clearing.makeup clearing.old) }
        ensures law { Extends (place (R.SharingRule.shares rule.now) (length register.old) participant terms.now) (world_of self.old.desk.state register.old (C.Clearing.book clearing.old)) (world_of self.new.desk.state register.new (C.Clearing.book clearing.new)) }
        ensures elsewhere { (length register.old ≡ self.old.desk.state.settings.rows → ⊥) → (other : List Row) → length register.old ≤ length other → Extends (place (R.SharingRule.shares rule.now) (length register.old) participant terms.now) (world_of self.old.desk.state other (C.Clearing.book clearing.old)) (world_of self.new.desk.state other (C.Clearing.book clearing.new)) }
    {
        self.desk
            .place(rule, register, clearing, participant, terms)
    }

    /// Takes an order out at its owner's word, and releases its lots.
    pub fn withdraw<C: Clearing>(
        &mut self,
        clearing: &mut C,
        number: u32,
        participant: u32,
    ) -> Result<Withdrawn, Refusal>
        ensures outcome { (register : List Row) → withdrawing number participant (world_of self.old.desk.state register (C.Clearing.book clearing.old)) ≡ record { answer = withdraw_answer result; world = world_of self.new.desk.state register (C.Clearing.book clearing.new) } }
        ensures inside { C.Clearing.makeup clearing.new ≡ withdraw_inside number participant (day_of self.old.desk.state) (C.Clearing.makeup clearing.old) }
        ensures law { (register : List Row) → Extends (withdraw number participant) (world_of self.old.desk.state register (C.Clearing.book clearing.old)) (world_of self.new.desk.state register (C.Clearing.book clearing.new)) }
    {
        self.desk.withdraw(clearing, number, participant)
    }

    /// Moves the clock and lets each due order enter, by activation time and then by number.
    pub fn clock<R: SharingRule, C: Clearing>(
        &mut self,
        rule: &R,
        register: &mut [Row],
        clearing: &mut C,
        time: u32,
    ) -> Result<Clocked, Refusal>
        ensures outcome { clocking (R.SharingRule.shares rule.now) time (world_of self.old.desk.state register.old (C.Clearing.book clearing.old)) ≡ record { answer = clock_answer result; world = world_of self.new.desk.state register.new (C.Clearing.book clearing.new) } }
        ensures inside { C.Clearing.makeup clearing.new ≡ clock_inside (R.SharingRule.shares rule.now) time (world_of self.old.desk.state register.old (C.Clearing.book clearing.old)) (C.Clearing.makeup clearing.old) }
        ensures law { Extends (clock (R.SharingRule.shares rule.now) (length register.old) time) (world_of self.old.desk.state register.old (C.Clearing.book clearing.old)) (world_of self.new.desk.state register.new (C.Clearing.book clearing.new)) }
        ensures elsewhere { (length register.old ≡ self.old.desk.state.settings.rows → ⊥) → (other : List Row) → length register.old ≤ length other → Extends (clock (R.SharingRule.shares rule.now) (length register.old) time) (world_of self.old.desk.state other (C.Clearing.book clearing.old)) (world_of self.new.desk.state other (C.Clearing.book clearing.new)) }
    {
        self.desk.clock(rule, register, clearing, time)
    }

    /// Closes the day: all that rests or waits is withdrawn and released.
    pub fn close<C: Clearing>(self, clearing: &mut C) -> ClosedDay
        ensures world { (register : List Row) → closing (world_of self.desk.state register (C.Clearing.book clearing.old)) ≡ world_of result.desk.state register (C.Clearing.book clearing.new) }
        ensures inside { C.Clearing.makeup clearing.new ≡ close_inside (day_of self.desk.state).orders (C.Clearing.makeup clearing.old) }
        ensures law { (register : List Row) → Closes (world_of self.desk.state register (C.Clearing.book clearing.old)) (world_of result.desk.state register (C.Clearing.book clearing.new)) }
    {
        let OpenDay { mut desk } = self;
        desk.close(clearing);
        ClosedDay { desk }
    }

    /// Writes the best rates and their visible lots, and says how many there are.
    pub fn depth(
        &self,
        direction: Direction,
        security: u32,
        code: Code,
        rates: &mut [Rate],
        totals: &mut [u32],
    ) -> Result<usize, Refusal>
        ensures { Reported (reporting self.now.desk.state.settings direction security code (length rates.old) (length totals.old) (day_of self.now.desk.state).orders) result rates.old rates.new totals.old totals.new }
    {
        self.desk.depth(direction, security, code, rates, totals)
    }

    /// The settings of the day.
    pub fn settings(&self) -> Settings
        ensures { result ≡ (day_of self.now.desk.state).settings }
    {
        self.desk.settings()
    }

    /// What the clock reads.
    pub fn time(&self) -> u32
        ensures { result ≡ (day_of self.now.desk.state).clock }
    {
        self.desk.time()
    }

    /// How many register rows are used.
    pub fn used_rows(&self) -> usize
        ensures { result ≡ (day_of self.now.desk.state).used }
    {
        self.desk.used_rows()
    }

    /// The order with a number, if there is one.
    pub fn order(&self, number: u32) -> Option<Order>
        ensures { result ≡ numbered (day_of self.now.desk.state).orders number }
    {
        self.desk.order(number)
    }
}
