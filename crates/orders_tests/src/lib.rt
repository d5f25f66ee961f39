//! Tests of the crate `orders`.
#![tactic(auto)]

#[cfg(test)]
mod checks;
#[cfg(test)]
mod pairs;
#[cfg(test)]
mod samples;
#[cfg(test)]
mod settings;
#[cfg(test)]
mod states;
#[cfg(test)]
mod sums;
