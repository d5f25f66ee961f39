//! Sharing rules: how lots are divided among the resting orders at one rate.
#![tactic(auto)]

mod answer;
mod chosen;
mod missing;
mod parity_level;
mod pro_rata;
mod request;
mod sharing_rule;
mod theorems;
mod time_priority;

pub use chosen::Rule;
pub use parity_level::Parity;
pub use pro_rata::ProRata;
pub use sharing_rule::SharingRule;
pub use theorems::{figures_hold, level_is_greatest};
pub use time_priority::Time;
