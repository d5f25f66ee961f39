//! What an order asks, and how it stands in a day. All sums are in lots, all times in seconds after midnight.

/// A deposit order places money, a repo order takes it against securities.
#[derive(Clone, Copy, Debug, Default, PartialEq, Eq)]
pub enum Direction {
    #[default]
    Deposit,
    Repo,
}

/// A limit order has a rate, a market order meets every rate.
#[derive(Clone, Copy, Debug, Default, PartialEq, Eq)]
pub enum Kind {
    #[default]
    Limit,
    Market,
}

/// What becomes of the lots that an order does not conclude when it enters.
#[derive(Clone, Copy, Debug, Default, PartialEq, Eq)]
pub enum Remainder {
    /// They rest in the queue.
    #[default]
    Queue,
    /// They are withdrawn.
    Withdraw,
    /// There are none: the order concludes its whole sum or nothing.
    FillOrReject,
}

/// How the orders of a day meet.
#[derive(Clone, Copy, Debug, PartialEq, Eq)]
pub enum Mode {
    Unaddressed,
    Auction,
}

/// A settlement code Ym/Yn: `m` from 0 to 2, and `term` the index of n, from 0 to 13, in
/// 1D, 1W, 2W, 5W, 1M, 2M, 3M, 6M, 9M, 12M, 18M, 24M, 30M, 36M.
// Numbers and no enum: any two numbers may be asked for, and those that name no code are refused.
#[derive(Clone, Copy, Debug, Default, PartialEq, Eq)]
pub struct Code {
    pub m: u32,
    pub term: u32,
}

/// A rate in hundredths of a percent a year.
#[derive(Clone, Copy, Debug, Default, PartialEq, Eq, PartialOrd, Ord)]
pub struct Rate {
    pub hundredths: u32,
}

/// What an order asks.
// A rate beside the kind, and 0 for no percent and no activation, not options: any figures may be asked for, and refusals 4, 8, 9 and 10 tell which do not go together.
#[derive(Clone, Copy, Debug, Default, PartialEq, Eq)]
pub struct Terms {
    pub direction: Direction,
    pub kind: Kind,
    pub remainder: Remainder,
    /// The securities 0 to 63 as a set of bits.
    pub securities: u64,
    pub code: Code,
    /// 0 for a market order.
    pub rate: Rate,
    pub sum: u32,
    /// How much of the sum is visible; 0 for an order that shows all of it.
    pub percent: u32,
    pub return_mark: bool,
    /// When a waiting order enters; 0 for one that does not wait.
    pub activation: u32,
}

/// Where an order is in its life. `Done` is the default, so that an unused place of a table holds a done order.
#[derive(Clone, Copy, Debug, Default, PartialEq, Eq)]
pub enum State {
    #[default]
    Done,
    Waiting,
    Active,
}

/// A registered order.
#[derive(Clone, Copy, Debug, Default, PartialEq, Eq)]
pub struct Order {
    pub number: u32,
    pub owner: u32,
    pub terms: Terms,
    pub state: State,
    pub visible: u32,
    pub hidden: u32,
    pub withdrawn: u32,
}

/// A register row: the lots that two orders, given by their numbers, concluded with each other.
#[derive(Clone, Copy, Debug, PartialEq, Eq)]
pub struct Row {
    pub deposit: u32,
    pub repo: u32,
    pub rate: Rate,
    pub lots: u32,
}
