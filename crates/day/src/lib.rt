//! Open and closed days of the deposit market. The law of every list of calls stands on their calls.
#![tactic(auto)]

mod closed_day;
mod open_day;

pub use closed_day::ClosedDay;
pub use open_day::OpenDay;
