//! Orders by their numbers.
ghost use Rattle.std.specs.Prelude.{◌≡◌, ◌<◌, length, IfSome};
ghost use Rattle.desk.specs.Statements.{numbered, place_of};
ghost use Rattle.model.specs.States.{day_of};

use crate::desk::Desk;
use orders::Order;

impl Desk {
    /// The place of the order with a number, if there is one.
    pub(crate) fn place_of(&self, number: u32) -> Option<usize>
        ensures value { result ≡ place_of (day_of self.now.state).orders number }
        ensures stands { IfSome result (λ k. k < length (day_of self.now.state).orders) }
    {
        // `as`, since `usize` has no `From<u32>`, and a `try_from` could not fail.
        let place = number.checked_sub(1)? as usize;
        (place < self.orders().len()).then_some(place)
    }

    /// The order with a number, if there is one.
    pub fn order(&self, number: u32) -> Option<Order>
        ensures { result ≡ numbered (day_of self.now.state).orders number }
    {
        let place = self.place_of(number)?;
        Some(self.order_at(place))
    }
}
