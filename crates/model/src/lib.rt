//! The definitions of a whole day, and their laws.
#![tactic(auto)]

mod state;
mod theorems;

pub use state::{DayState, MOST_ORDERS};
pub use theorems::{every_list_obeys, figures_hold, refills_in_turn};
