//! Whether a call is refused, and for what. Nothing is changed here.
ghost use Rattle.std.specs.Prelude.{◌≡◌, ◌<◌, ◌≤◌, pred, List, length, IfOk};
ghost use Rattle.std.specs.Result.{result_err};
ghost use Rattle.clearing.specs.Book.{Book};
ghost use Rattle.desk.specs.Judging.{own_tests, place_tests, room_tests};
ghost use Rattle.desk.specs.Worlds.{world_of};
ghost use Rattle.model.specs.Clock.{clock_table, due};
ghost use Rattle.model.specs.Place.{volume_fails};
ghost use Rattle.model.specs.States.{day_of};
ghost use Rattle.model.specs.Withdraw.{withdraw_table};
ghost use Rattle.orders.specs.Table.{first};
ghost use Rattle.orders.specs.declared.kinds.Row.{Row};

use crate::desk::Desk;
use orders::{Direction, LAST_TIME, Order, Refusal, Remainder, State, Terms, check_terms, waits};

/// The most registered orders of a direction.
const MOST_OF_DIRECTION: usize = 64;

/// The first of the refusals 16 and 17 that applies to a withdrawal of this order.
fn judge_owner(order: &Order, participant: u32) -> Result<(), Refusal>
    ensures { result_err result ≡ first (own_tests order.now participant) }
{
    if order.owner != participant {
        Err(Refusal::NotOwner)
    } else if order.state == State::Done {
        Err(Refusal::OrderDone)
    } else {
        Ok(())
    }
}

impl Desk {
    /// How many rows the register has.
    fn rows(&self) -> usize
        ensures { result ≡ self.now.state.settings.rows }
    {
        // `as`, since `usize` has no `From<u32>`, and a `try_from` could not fail.
        self.state.settings.rows() as usize
    }

    /// Whether an all-or-nothing order asks more than is admissible to it.
    pub(crate) fn volume_fails(&self, terms: &Terms) -> bool
        ensures { result ≡ volume_fails terms.now (day_of self.now.state).orders }
    {
        terms.remainder == Remainder::FillOrReject && self.admissible_lots(terms) < terms.sum
    }

    /// The first of the refusals 11 to 13 that applies to an order to be placed.
    fn judge_room(&self, register_length: usize, terms: &Terms) -> Result<(), Refusal>
        ensures { result_err result ≡ first (room_tests (day_of self.now.state) register_length terms.now) }
    {
        let free_rows = register_length.saturating_sub(self.state.used);
        if self.registered(terms.direction) >= MOST_OF_DIRECTION {
            Err(Refusal::TooManyOrders)
        } else if waits(self.state.settings.mode(), terms) {
            Ok(())
        } else if free_rows < self.opposite(terms.direction) {
            Err(Refusal::TooFewRows)
        } else if self.volume_fails(terms) {
            Err(Refusal::Volume)
        } else {
            Ok(())
        }
    }

    /// The first of the refusals 2 to 13 that applies to an order to be placed.
    pub(crate) fn judge_place(
        &self,
        register_length: usize,
        participant: u32,
        terms: &Terms,
    ) -> Result<(), Refusal>
        ensures { result_err result ≡ first (place_tests (day_of self.now.state) register_length participant terms.now) }
    {
        if register_length != self.rows() {
            return Err(Refusal::RegisterLength);
        }
        check_terms(&self.state.settings, self.state.clock, participant, terms)?;
        self.judge_room(register_length, terms)
    }

    /// The place of the order that a withdrawal takes out, or the first of the refusals 15 to 17 that applies.
    pub(crate) fn judge_withdraw(&self, number: u32, participant: u32) -> Result<usize, Refusal>
        ensures refusal { result_err result ≡ first (withdraw_table (day_of self.now.state) number participant) }
        ensures place { IfOk result (λ k. (k ≡ pred number) × (k < length (day_of self.now.state).orders)) }
    {
        let place = self.place_of(number).ok_or(Refusal::NoSuchOrder)?;
        judge_owner(&self.order_at(place), participant)?;
        Ok(place)
    }

    /// The first of the refusals 2, 10 and 12 that applies to the clock, where so many orders are due.
    pub(crate) fn judge_clock(
        &self,
        register_length: usize,
        time: u32,
        due_count: usize,
    ) -> Result<(), Refusal>
        requires count { due_count ≡ length (due time (day_of self.now.state).orders) }
        requires bound { due_count ≤ 128 }
        ensures { (register : List Row) (cover : Book) → length register ≡ register_length → result_err result ≡ first (clock_table (world_of self.now.state register cover) time) }
    {
        let rows_needed = due_count * self.opposite(Direction::Deposit);
        if register_length != self.rows() {
            Err(Refusal::RegisterLength)
        } else if time < self.state.clock || time > LAST_TIME {
            Err(Refusal::Time)
        } else if register_length.saturating_sub(self.state.used) < rows_needed {
            Err(Refusal::TooFewRows)
        } else {
            Ok(())
        }
    }
}
