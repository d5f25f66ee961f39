//! The state of a day, in tables of fixed size.
ghost use Rattle.std.specs.Prelude.{◌≡◌};
ghost use Rattle.model.specs.Days.{opened};
ghost use Rattle.model.specs.States.{day_of};

use orders::{OPENING_TIME, Order, Settings};

/// The most orders of a day: 64 of each direction.
pub const MOST_ORDERS: usize = 128;

/// A day: its first `count` orders, with number k + 1 at place k, and the queue of their places. No part of it lies on the heap.
// Places and no orders in the queue: an order keeps its place for good, since its number is the place's.
// Tables with their count, and no `ArrayVec`: a day can be copied, and such a vector cannot.
#[derive(Clone, Copy)]
pub struct DayState {
    pub settings: Settings,
    pub clock: u32,
    pub orders: [Order; MOST_ORDERS],
    pub queue: [u8; MOST_ORDERS],
    pub count: usize,
    pub used: usize,
}

impl DayState {
    /// A newly opened day.
    pub fn open(settings: Settings) -> DayState
        ensures day { day_of result ≡ opened settings }
        ensures count { result.count ≡ 0 }
    {
        DayState {
            settings,
            clock: OPENING_TIME,
            orders: [Order::default(); MOST_ORDERS],
            queue: [0; MOST_ORDERS],
            count: 0,
            used: 0,
        }
    }
}
