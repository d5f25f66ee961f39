//! A clearing whose make-up is chosen at run time: a base and up to two caps on it.
#![tactic(auto)]

mod base;
mod layers;
mod set_error;

pub use base::{Base, BaseKind};
pub use layers::Pile;
pub use set_error::SetError;
