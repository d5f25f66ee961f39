//! Why a call is refused, and what an accepted one answers.
ghost use Rattle.std.specs.Prelude.{◌≡◌};
ghost use Rattle.orders.specs.Answers.{refusal_number};

/// What a call is refused for.
#[derive(Clone, Copy, Debug, PartialEq, Eq)]
pub enum Refusal {
    Settings,
    RegisterLength,
    Participant,
    Rate,
    Sum,
    Code,
    Securities,
    Marks,
    Percent,
    Time,
    TooManyOrders,
    TooFewRows,
    Volume,
    Cover,
    NoSuchOrder,
    NotOwner,
    OrderDone,
    DepthArrays,
}

impl Refusal {
    /// The refusal's number, from 1 to 18.
    // A match and not discriminants: the numbers are the published table, which is read here line by line.
    pub fn number(self) -> u32
        ensures { result ≡ refusal_number self }
    {
        match self {
            Refusal::Settings => 1,
            Refusal::RegisterLength => 2,
            Refusal::Participant => 3,
            Refusal::Rate => 4,
            Refusal::Sum => 5,
            Refusal::Code => 6,
            Refusal::Securities => 7,
            Refusal::Marks => 8,
            Refusal::Percent => 9,
            Refusal::Time => 10,
            Refusal::TooManyOrders => 11,
            Refusal::TooFewRows => 12,
            Refusal::Volume => 13,
            Refusal::Cover => 14,
            Refusal::NoSuchOrder => 15,
            Refusal::NotOwner => 16,
            Refusal::OrderDone => 17,
            Refusal::DepthArrays => 18,
        }
    }
}

/// An order was registered under `number` and concluded `lots` when it entered.
#[derive(Clone, Copy, Debug, PartialEq, Eq)]
pub struct Placed {
    pub number: u32,
    pub lots: u32,
}

/// `lots` of an order were withdrawn.
#[derive(Clone, Copy, Debug, PartialEq, Eq)]
pub struct Withdrawn {
    pub lots: u32,
}

/// The clock moved: `count` orders were activated, and together they concluded `lots`.
#[derive(Clone, Copy, Debug, PartialEq, Eq)]
pub struct Clocked {
    pub count: u32,
    pub lots: u32,
}
