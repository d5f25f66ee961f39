//! Which orders may meet, and at which rate.
// Deposit and repo order stay two parameters: a pair of them would be made for each question and taken apart in it.
ghost use Rattle.std.specs.Prelude.{◌≡◌};
ghost use Rattle.orders.specs.Admissible.{names, security_held, rates_meet, admissible, admissible_to, row_rate};

use crate::kinds::{Direction, Kind, Rate, Terms};
use crate::settings::Settings;

/// Whether a security, from 0 to 63, is in the set.
pub fn names(securities: u64, security: u32) -> bool
    ensures { result ≡ names securities security }
{
    security < 64 && (securities >> security) % 2 == 1
}

/// Whether a deposit and a repo order may meet.
pub fn admissible(deposit: &Terms, repo: &Terms) -> bool
    ensures { result ≡ admissible deposit.now repo.now }
{
    deposit.code == repo.code
        && security_held(deposit, repo)
        && !repo.return_mark
        && rates_meet(deposit, repo)
}

/// Whether a newcomer may meet a resting order; never one of its own direction.
pub fn admissible_to(newcomer: &Terms, resting: &Terms) -> bool
    ensures { result ≡ admissible_to newcomer.now resting.now }
{
    match (newcomer.direction, resting.direction) {
        (Direction::Deposit, Direction::Repo) => admissible(newcomer, resting),
        (Direction::Repo, Direction::Deposit) => admissible(resting, newcomer),
        _ => false,
    }
}

/// The rate at which lots of a resting order are concluded: its own, under all settings.
pub fn row_rate(_settings: &Settings, resting: &Terms) -> Rate
    ensures { result ≡ row_rate _settings.now resting.now }
{
    resting.rate
}

/// Whether the repo order's security is in the deposit's set.
fn security_held(deposit: &Terms, repo: &Terms) -> bool
    ensures { result ≡ security_held deposit.now repo.now }
{
    repo.securities & deposit.securities == repo.securities
}

/// Whether the deposit's rate is at most the repo rate, or either is a market order.
fn rates_meet(deposit: &Terms, repo: &Terms) -> bool
    ensures { result ≡ rates_meet deposit.now repo.now }
{
    match (deposit.kind, repo.kind) {
        (Kind::Limit, Kind::Limit) => deposit.rate <= repo.rate,
        _ => true,
    }
}
