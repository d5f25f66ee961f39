//! How an order stands: its direction against another, and its state.
ghost use Rattle.std.specs.Prelude.{◌≡◌, ◌≤◌, not, ◌&&◌};
ghost use Rattle.model.specs.Clock.{is_due};
ghost use Rattle.model.specs.Market.{is_active, lots_of, meets, offered};
ghost use Rattle.model.specs.Place.{same_direction};

use orders::{Direction, Order, State, Terms, admissible_to};

/// Whether the order is active and of the other direction.
pub(crate) fn opposes(direction: Direction, order: &Order) -> bool
    ensures { result ≡ (is_active order.now.state && not (same_direction direction order.now.terms.direction)) }
{
    order.state == State::Active && order.terms.direction != direction
}

/// Whether the order is active and admissible to the one that enters.
pub(crate) fn meets(newcomer: &Terms, order: &Order) -> bool
    ensures { result ≡ meets newcomer.now order.now }
{
    order.state == State::Active && admissible_to(newcomer, &order.terms)
}

/// The lots that the order offers to the one that enters.
pub(crate) fn offered(newcomer: &Terms, order: &Order) -> u32
    requires { lots_of order.now ≤ 1000000 }
    ensures { result ≡ offered newcomer.now order.now }
{
    if meets(newcomer, order) {
        order.visible + order.hidden
    } else {
        0
    }
}

/// Whether the order waits and its activation has come.
pub(crate) fn is_due(time: u32, order: &Order) -> bool
    ensures { result ≡ is_due time order.now }
{
    order.state == State::Waiting && order.terms.activation <= time
}
