//! The check of the settings, and a question for each of their figures.
ghost use Rattle.std.specs.Prelude.{◌≡◌, Decides};
ghost use Rattle.orders.specs.Lawful.{LeastSum, Percents};
ghost use Rattle.orders.specs.Made.{MadeOf};

use crate::checks::MAX_SUM;
use crate::kinds::Mode;
use crate::refusals::Refusal;
use crate::settings::Settings;

/// The most rows of a register.
const MAX_ROWS: u32 = 4_096;

impl Settings {
    /// Settings of these figures, if they are lawful.
    pub fn new(
        mode: Mode,
        least_percent: u32,
        greatest_percent: u32,
        least_sum: u32,
        least_iceberg_sum: u32,
        rows: u32,
    ) -> Result<Settings, Refusal>
        ensures { MadeOf mode least_percent greatest_percent least_sum least_iceberg_sum rows result }
    {
        let percents = lawful_percents(least_percent, greatest_percent);
        let sums = lawful_least(least_sum) && lawful_least(least_iceberg_sum);
        if !percents || !sums || rows > MAX_ROWS {
            return Err(Refusal::Settings);
        }
        Ok(Settings {
            mode,
            least_percent,
            greatest_percent,
            least_sum,
            least_iceberg_sum,
            rows,
        })
    }

    /// The mode of the day.
    pub fn mode(&self) -> Mode
        ensures { result ≡ self.now.mode }
    {
        self.mode
    }

    /// The least visible percent.
    pub fn least_percent(&self) -> u32
        ensures { result ≡ self.now.least_percent }
    {
        self.least_percent
    }

    /// The greatest visible percent.
    pub fn greatest_percent(&self) -> u32
        ensures { result ≡ self.now.greatest_percent }
    {
        self.greatest_percent
    }

    /// The least sum of an order.
    pub fn least_sum(&self) -> u32
        ensures { result ≡ self.now.least_sum }
    {
        self.least_sum
    }

    /// The least sum of an iceberg.
    pub fn least_iceberg_sum(&self) -> u32
        ensures { result ≡ self.now.least_iceberg_sum }
    {
        self.least_iceberg_sum
    }

    /// The number of register rows.
    pub fn rows(&self) -> u32
        ensures { result ≡ self.now.rows }
    {
        self.rows
    }
}

/// Whether 1 ≤ least ≤ greatest ≤ 100.
fn lawful_percents(least: u32, greatest: u32) -> bool
    ensures { Decides result (Percents least greatest) }
{
    1 <= least && least <= greatest && greatest <= 100
}

/// Whether a least sum is from 1 to 1,000,000.
fn lawful_least(sum: u32) -> bool
    ensures { Decides result (LeastSum sum) }
{
    (1..=MAX_SUM).contains(&sum)
}
