//! The clock of a day.
// Rule, register and clearing stay parameters: each call is handed its own, by the published form of the call.
ghost use Rattle.std.specs.Prelude.{◌≡◌, ◌≤◌, length};
ghost use Rattle.desk.specs.Due.{MayEnter};
ghost use Rattle.desk.specs.Inside.{activations_inside, clock_inside};
ghost use Rattle.desk.specs.Worlds.{world_of};
ghost use Rattle.model.specs.Clock.{activations, clocking};
ghost use Rattle.model.specs.States.{day_of};
ghost use Rattle.orders.specs.Answers.{clock_answer};

use crate::desk::Desk;
use crate::due::list_due;
use clearing::Clearing;
use orders::{Clocked, Refusal, Row};
use sharing::SharingRule;

impl Desk {
    /// Activates the orders at some places, one after another, and says how many lots they concluded.
    fn activate_each<R: SharingRule, C: Clearing>(
        &mut self,
        rule: &R,
        register: &mut [Row],
        clearing: &mut C,
        places: &[u8],
    ) -> u32
        requires few { length places.now ≤ 128 }
        requires ready { MayEnter places.now (day_of self.old.state) register.old }
        ensures lots { result ≡ (activations (R.SharingRule.shares rule.now) places.now (world_of self.old.state register.old (C.Clearing.book clearing.old))).lots }
        ensures world { world_of self.new.state register.new (C.Clearing.book clearing.new) ≡ (activations (R.SharingRule.shares rule.now) places.now (world_of self.old.state register.old (C.Clearing.book clearing.old))).world }
        ensures inside { C.Clearing.makeup clearing.new ≡ activations_inside (R.SharingRule.shares rule.now) places.now (world_of self.old.state register.old (C.Clearing.book clearing.old)) (C.Clearing.makeup clearing.old) }
    {
        let mut lots = 0;
        for &place in places {
            lots += self.activate(rule, register, clearing, usize::from(place));
        }
        lots
    }

    /// Moves the clock and lets each due order enter, by activation time and then by number.
    pub fn clock<R: SharingRule, C: Clearing>(
        &mut self,
        rule: &R,
        register: &mut [Row],
        clearing: &mut C,
        time: u32,
    ) -> Result<Clocked, Refusal>
        ensures outcome { clocking (R.SharingRule.shares rule.now) time (world_of self.old.state register.old (C.Clearing.book clearing.old)) ≡ record { answer = clock_answer result; world = world_of self.new.state register.new (C.Clearing.book clearing.new) } }
        ensures inside { C.Clearing.makeup clearing.new ≡ clock_inside (R.SharingRule.shares rule.now) time (world_of self.old.state register.old (C.Clearing.book clearing.old)) (C.Clearing.makeup clearing.old) }
    {
        let places = list_due(time, self.orders());
        self.judge_clock(register.len(), time, places.len())?;
        self.state.clock = time;
        let lots = self.activate_each(rule, register, clearing, &places);
        Ok(Clocked {
            // `as`, and no `try_from`, which could not fail: there are at most 128.
            count: places.len() as u32,
            lots,
        })
    }
}
