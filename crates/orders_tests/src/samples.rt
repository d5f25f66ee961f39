//! Lawful orders.
use orders::{Code, Direction, Kind, Rate, Remainder, Terms};

/// A limit queue deposit of 100 lots at 15.00 percent on security 3, settled Y0/Y1W.
pub const DEPOSIT: Terms = Terms {
    direction: Direction::Deposit,
    kind: Kind::Limit,
    remainder: Remainder::Queue,
    securities: 0b1000,
    code: Code { m: 0, term: 1 },
    rate: Rate { hundredths: 1_500 },
    sum: 100,
    percent: 0,
    return_mark: false,
    activation: 0,
};

/// The same as a repo order.
pub const REPO: Terms = Terms {
    direction: Direction::Repo,
    ..DEPOSIT
};

/// The same as a market order.
pub const MARKET: Terms = Terms {
    kind: Kind::Market,
    remainder: Remainder::Withdraw,
    rate: Rate { hundredths: 0 },
    ..DEPOSIT
};

/// A fill-or-reject deposit of an auction, active at 10:00.
pub const WAITING: Terms = Terms {
    remainder: Remainder::FillOrReject,
    activation: 36_000,
    ..DEPOSIT
};
