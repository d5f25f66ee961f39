//! Orders of a deposit market: their terms, their checks, and which of them may meet.
#![tactic(auto)]

mod admissibility;
mod checks;
mod kinds;
mod lifecycle;
mod refusals;
mod settings;
mod theorems;
mod visibility;

pub use admissibility::{admissible, admissible_to, names, row_rate};
pub use checks::{LAST_TIME, OPENING_TIME, check_terms, lawful_code, waits};
pub use kinds::{Code, Direction, Kind, Mode, Order, Rate, Remainder, Row, State, Terms};
pub use lifecycle::{Event, next_state};
pub use refusals::{Clocked, Placed, Refusal, Withdrawn};
pub use settings::Settings;
pub use theorems::{admissible_facts_hold, one_security_holds, visible_bounds_hold};
pub use visibility::visible_sum;
