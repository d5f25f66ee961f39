//! The settings of a day. A value of the type is lawful.
ghost use Rattle.orders.specs.Lawful.{LawfulSettings};

use crate::kinds::Mode;

mod figures;

/// Settings that passed their check.
#[derive(Clone, Copy, Debug, PartialEq, Eq)]
pub struct Settings {
    mode: Mode,
    least_percent: u32,
    greatest_percent: u32,
    least_sum: u32,
    least_iceberg_sum: u32,
    rows: u32,
    ghost lawful: { LawfulSettings least_percent greatest_percent least_sum least_iceberg_sum rows },
}
