//! A script's run: each line is read, obeyed and answered.
#![tactic(auto)]

mod asked_shares;
mod obeying;
mod obstacle;
mod order_need;
mod run;
mod totals;

pub use obstacle::Obstacle;
pub use run::Session;
