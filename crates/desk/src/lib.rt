//! The desk of a day: its state, and its calls by their definitions.
#![tactic(auto)]

mod activation;
mod clocking;
mod closing;
mod counting;
mod cover;
mod depth;
mod desk;
mod due;
mod entry;
mod judging;
mod matching;
mod numbers;
mod places;
mod placing;
mod standing;
mod statement;
mod withdrawal;

pub use desk::Desk;
pub use statement::StatementLine;
