//! The checks of an order that need only its terms, the settings and the clock.
// Mode and terms stay two parameters: one is the day's and one the order's, and a struct of both would be made at each question.
ghost use Rattle.std.specs.Prelude.{◌≡◌};
ghost use Rattle.orders.specs.Checks.{waits_first, wrong_rate, wrong_sum, lawful_code, wrong_securities, wrong_marks, wrong_percent, wrong_time};
ghost use Rattle.orders.specs.Checks.{limit_queue, market_remains, misplaced_percent, returned_deposit, unfit_for_auction};
ghost use Rattle.orders.specs.Table.{first, terms_table};
ghost use Rattle.std.specs.Result.{result_err};

use crate::kinds::{Code, Direction, Kind, Mode, Remainder, Terms};
use crate::refusals::Refusal;
use crate::settings::Settings;
use crate::visibility::visible_sum;

/// The clock of a new day: 09:30.
pub const OPENING_TIME: u32 = 34_200;

/// The end of the session: 23:59.
pub const LAST_TIME: u32 = 86_340;

/// The last participant.
const LAST_PARTICIPANT: u32 = 63;

/// The largest sum of an order.
pub(crate) const MAX_SUM: u32 = 1_000_000;

/// The largest limit rate, in hundredths of a percent.
const MAX_RATE: u32 = 10_000;

/// The first of the refusals 3 to 10 that applies to an order to be placed.
pub fn check_terms(
    settings: &Settings,
    clock: u32,
    participant: u32,
    terms: &Terms,
) -> Result<(), Refusal>
    ensures { result_err result ≡ first (terms_table settings.now clock participant terms.now) }
{
    if participant > LAST_PARTICIPANT {
        Err(Refusal::Participant)
    } else if wrong_rate(terms) {
        Err(Refusal::Rate)
    } else if wrong_sum(settings, terms) {
        Err(Refusal::Sum)
    } else if !lawful_code(terms.code) {
        Err(Refusal::Code)
    } else if wrong_securities(settings.mode(), terms) {
        Err(Refusal::Securities)
    } else if wrong_marks(settings.mode(), terms) {
        Err(Refusal::Marks)
    } else if wrong_percent(settings, terms) {
        Err(Refusal::Percent)
    } else if wrong_time(settings.mode(), clock, terms) {
        Err(Refusal::Time)
    } else {
        Ok(())
    }
}

/// Whether the code has m from 0 to 2 and a term from 0 to 13.
pub fn lawful_code(code: Code) -> bool
    ensures { result ≡ lawful_code code }
{
    code.m <= 2 && code.term <= 13
}

/// Whether an order waits for its activation: an auction deposit.
pub fn waits(mode: Mode, terms: &Terms) -> bool
    ensures { result ≡ waits_first mode terms.now }
{
    mode == Mode::Auction && terms.direction == Direction::Deposit
}

/// Whether a limit rate is outside 1 to 10,000, or a market rate is not 0.
fn wrong_rate(terms: &Terms) -> bool
    ensures { result ≡ wrong_rate terms.now }
{
    let rate = terms.rate.hundredths;
    match terms.kind {
        Kind::Limit => !(1..=MAX_RATE).contains(&rate),
        Kind::Market => rate != 0,
    }
}

/// Whether the sum is below the least or above 1,000,000.
fn wrong_sum(settings: &Settings, terms: &Terms) -> bool
    ensures { result ≡ wrong_sum settings.now terms.now }
{
    terms.sum < settings.least_sum() || terms.sum > MAX_SUM
}

/// Whether there is no security, or more than one in a repo order or in unaddressed mode.
fn wrong_securities(mode: Mode, terms: &Terms) -> bool
    ensures { result ≡ wrong_securities mode terms.now }
{
    let count = terms.securities.count_ones();
    let just_one = terms.direction == Direction::Repo || mode == Mode::Unaddressed;
    count == 0 || count > 1 && just_one
}

/// Whether the marks do not go together.
fn wrong_marks(mode: Mode, terms: &Terms) -> bool
    ensures { result ≡ wrong_marks mode terms.now }
{
    market_remains(terms)
        || misplaced_percent(mode, terms)
        || returned_deposit(terms)
        || unfit_for_auction(mode, terms)
}

/// Whether a market order's remainder is not withdrawn.
fn market_remains(terms: &Terms) -> bool
    ensures { result ≡ market_remains terms.now }
{
    terms.kind == Kind::Market && terms.remainder != Remainder::Withdraw
}

/// Whether a percent stands on any but a limit queue order, or in an auction.
fn misplaced_percent(mode: Mode, terms: &Terms) -> bool
    ensures { result ≡ misplaced_percent mode terms.now }
{
    terms.percent > 0 && (!limit_queue(terms) || mode == Mode::Auction)
}

/// Whether a deposit has a return mark.
fn returned_deposit(terms: &Terms) -> bool
    ensures { result ≡ returned_deposit terms.now }
{
    terms.return_mark && terms.direction == Direction::Deposit
}

/// Whether it is an auction, and a deposit is market or queue, or a repo order is not limit and queue.
fn unfit_for_auction(mode: Mode, terms: &Terms) -> bool
    ensures { result ≡ unfit_for_auction mode terms.now }
{
    match (mode, terms.direction) {
        (Mode::Unaddressed, _) => false,
        (Mode::Auction, Direction::Deposit) => {
            terms.kind == Kind::Market || terms.remainder == Remainder::Queue
        }
        (Mode::Auction, Direction::Repo) => !limit_queue(terms),
    }
}

/// Whether it is a limit order whose remainder rests.
fn limit_queue(terms: &Terms) -> bool
    ensures { result ≡ limit_queue terms.now }
{
    terms.kind == Kind::Limit && terms.remainder == Remainder::Queue
}

/// Whether an iceberg's percent, sum or visible sum is outside the settings.
fn wrong_percent(settings: &Settings, terms: &Terms) -> bool
    ensures { result ≡ wrong_percent settings.now terms.now }
{
    terms.percent > 0
        && (!(settings.least_percent()..=settings.greatest_percent()).contains(&terms.percent)
            || terms.sum < settings.least_iceberg_sum()
            || visible_sum(terms.sum, terms.percent) < settings.least_sum())
}

/// Whether a waiting order's activation is not after the clock or past the end of the session, or another's is not 0.
fn wrong_time(mode: Mode, clock: u32, terms: &Terms) -> bool
    ensures { result ≡ wrong_time mode clock terms.now }
{
    if waits(mode, terms) {
        terms.activation <= clock || terms.activation > LAST_TIME
    } else {
        terms.activation != 0
    }
}
