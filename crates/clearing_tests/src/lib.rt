//! Tests of the clearings and of the sharing rules, by figures worked out by hand.
#![tactic(auto)]

#[cfg(test)]
mod cap_layers;
#[cfg(test)]
mod piles;
#[cfg(test)]
mod pots;
#[cfg(test)]
mod rules;
#[cfg(test)]
mod sheets;

#[cfg(test)]
use clearing::Refusal;
#[cfg(test)]
use pile::SetError;

/// The number that a setter refuses with, 0 where the figure was set.
#[cfg(test)]
fn number(answer: Result<(), Refusal>) -> u32 {
    match answer {
        Ok(()) => 0,
        Err(refusal) => refusal.number(),
    }
}

/// The same of a pile, and 1 where it has no such figure.
#[cfg(test)]
fn part_number(answer: Result<(), SetError>) -> u32 {
    match answer {
        Ok(()) => 0,
        Err(SetError::Refused(refusal)) => refusal.number(),
        Err(SetError::NoSuchPart) => 1,
    }
}
