//! Counts over the registered orders.
ghost use Rattle.std.specs.Prelude.{◌≡◌, ◌≤◌};
ghost use Rattle.model.specs.Market.{admissible_lots};
ghost use Rattle.model.specs.Place.{opposite, registered};
ghost use Rattle.model.specs.States.{day_of};

use crate::desk::Desk;
use crate::standing::{offered, opposes};
use orders::{Direction, Terms};

impl Desk {
    /// How many orders of a direction are registered, done ones too.
    pub(crate) fn registered(&self, direction: Direction) -> usize
        ensures { result ≡ registered direction (day_of self.now.state).orders }
    {
        self.orders()
            .iter()
            .filter(|order| order.terms.direction == direction)
            .count()
    }

    /// How many active orders there are of the other direction.
    pub(crate) fn opposite(&self, direction: Direction) -> usize
        ensures value { result ≡ opposite direction (day_of self.now.state).orders }
        ensures bound { result ≤ 128 }
    {
        self.orders()
            .iter()
            .filter(|order| opposes(direction, order))
            .count()
    }

    /// The lots admissible to the order that enters.
    pub(crate) fn admissible_lots(&self, newcomer: &Terms) -> u32
        ensures { result ≡ admissible_lots newcomer.now (day_of self.now.state).orders }
    {
        self.orders()
            .iter()
            .map(|order| offered(newcomer, order))
            .sum()
    }
}
