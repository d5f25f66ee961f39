//! The final statement of a day.
ghost use Rattle.std.specs.Prelude.{◌≡◌};
ghost use Rattle.desk.specs.Statements.{stated_as, stated_of};
ghost use Rattle.model.specs.States.{day_of};

use crate::desk::Desk;

/// How many lots of an order were concluded, and how many withdrawn.
#[derive(Clone, Copy, Debug, PartialEq, Eq)]
pub struct StatementLine {
    pub concluded: u32,
    pub withdrawn: u32,
}

impl Desk {
    /// What became of the order with a number, if there is one.
    pub fn statement(&self, number: u32) -> Option<StatementLine>
        ensures { stated_as result ≡ stated_of (day_of self.now.state).orders number }
    {
        let order = self.order_at(self.place_of(number)?);
        Some(StatementLine {
            concluded: order.terms.sum - order.withdrawn,
            withdrawn: order.withdrawn,
        })
    }
}
