//! The state machine of an order.
ghost use Rattle.std.specs.Prelude.{◌≡◌};
ghost use Rattle.orders.specs.Life.{next_state};

use crate::kinds::State;

/// What happens to an order.
#[derive(Clone, Copy, Debug, PartialEq, Eq)]
pub enum Event {
    Activation,
    /// Lots were concluded, and `left` are neither concluded nor withdrawn.
    Conclusion { left: u32 },
    Withdrawal,
    Close,
}

/// The state after the event. An event that cannot come up in a state leaves it.
pub fn next_state(state: State, event: Event) -> State
    ensures { result ≡ next_state state event }
{
    match (state, event) {
        (State::Waiting, Event::Activation) => State::Active,
        (State::Active, Event::Conclusion { left: 0 }) => State::Done,
        (State::Waiting | State::Active, Event::Withdrawal | Event::Close) => State::Done,
        _ => state,
    }
}
