//! Cover in clearing lots for participants 0 to 63.
#![tactic(auto)]

mod accounts;
mod cover;
mod line;
mod line_account;
mod pots;
mod purse;
mod purse_account;
mod sheet;

pub use cover::{Clearing, Refusal};
pub use pots::TwoPots;
pub use sheet::LimitSheet;
