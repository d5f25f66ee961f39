//! A closed day, and its final statement.
ghost use Rattle.std.specs.Prelude.{◌≡◌};
ghost use Rattle.desk.specs.Statements.{stated_as, stated_of};
ghost use Rattle.model.specs.Reach.{ReachedClosed};
ghost use Rattle.model.specs.States.{day_of};

use desk::{Desk, StatementLine};

/// A day that is over: nothing rests or waits in it.
#[derive(Drop)]
pub struct ClosedDay {
    pub(crate) desk: Desk,
    ghost reached: { ReachedClosed (day_of desk.state) },
}

// Its questions are the desk's, by name: a `Deref` to the desk would give a closed day calls too.
impl ClosedDay {
    /// How many register rows were used.
    pub fn used_rows(&self) -> usize
        ensures { result ≡ (day_of self.now.desk.state).used }
    {
        self.desk.used_rows()
    }

    /// The final statement of the order with a number, if there is one: its concluded and its withdrawn lots.
    pub fn statement(&self, number: u32) -> Option<StatementLine>
        ensures { stated_as result ≡ stated_of (day_of self.now.desk.state).orders number }
    {
        self.desk.statement(number)
    }
}
