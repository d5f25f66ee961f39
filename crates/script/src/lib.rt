//! Day scripts as text: a line is read to the command that it is the written form of, and an answer is written as a line.
#![tactic(auto)]

mod answer;
mod command;
mod form;
mod reading;

pub use answer::{Answer, Reason, write};
pub use command::{Command, Verb};
pub use reading::{Fault, parse};
