//! The rows that an entry makes.
ghost use Rattle.std.specs.Prelude.{◌≡◌, ◌+◌, ◌^◌, ◌<◌, ◌≤◌, length, take, position, sum_by, sum};
ghost use Rattle.std.specs.List.{All};
ghost use Rattle.model.specs.Rows.{add_row, add_rows, row_with, same_pair};
ghost use Rattle.desk.specs.Matching.{RowsMade, with_share};

use crate::matching::Entering;
use orders::{Direction, Order, Row, row_rate};

/// Whether two rows are of one pair.
fn same_pair(a: &Row, b: &Row) -> bool
    ensures { result ≡ same_pair a.now b.now }
{
    // A pair is two of the four fields, so the derived `==` of rows does not fit.
    (a.deposit, a.repo) == (b.deposit, b.repo)
}

/// Where the row of the same pair is, if there is one.
fn find_pair(row: &Row, rows: &[Row]) -> Option<usize>
    ensures { result ≡ position (same_pair row.now) rows.now }
{
    rows.iter().position(|other| same_pair(row, other))
}

/// The rows of an entry: the first `made` of these places.
// They lie in the caller's register, which no call keeps, so each step says that it is still the same one.
#[derive(Drop)]
pub(crate) struct Rows<'a> {
    pub(crate) all: &'a mut [Row],
    pub(crate) made: usize,
    ghost inside: { made ≤ length all.now },
}

impl Rows<'_> {
    /// Adds a conclusion: the row of its pair grows, or it is new.
    fn add(&mut self, row: Row)
        requires room { length (add_row row (take self.old.made self.old.all.now)) ≤ length self.old.all.now }
        requires fits { sum_by (λ r. r.lots) (take self.old.made self.old.all.now) + row.lots < 2 ^ 32 }
        ensures same { self.new.all.ghost_name ≡ self.old.all.ghost_name }
        ensures rows { RowsMade (add_row row (take self.old.made self.old.all.now)) self.old.all.now self.new.all.now self.new.made }
    {
        let all = &mut *self.all;
        match find_pair(&row, &all[..self.made]) {
            Some(at) => all[at].lots += row.lots,
            None => {
                all[self.made] = row;
                self.made += 1;
            }
        }
    }
}

impl Entering {
    /// The row of this order with the order at a place.
    fn row_with(&self, orders: &[Order], place: u8, lots: u32) -> Row
        requires { place < length orders.now }
        ensures { result ≡ row_with self.now.settings self.now.terms.direction self.now.number orders.now place lots }
    {
        let rate = row_rate(&self.settings, &orders[usize::from(place)].terms);
        let other = u32::from(place) + 1;
        let (deposit, repo) = match self.terms.direction {
            Direction::Deposit => (self.number, other),
            Direction::Repo => (other, self.number),
        };
        Row {
            deposit,
            repo,
            rate,
            lots,
        }
    }

    /// Adds the share of the order at a place; a share of 0 makes no row.
    fn add_share(&self, orders: &[Order], place: u8, lots: u32, rows: &mut Rows)
        requires stands { place < length orders.now }
        requires room { length (with_share self.now.settings self.now.terms.direction self.now.number orders.now place lots (take rows.old.made rows.old.all.now)) ≤ length rows.old.all.now }
        requires fits { sum_by (λ r. r.lots) (take rows.old.made rows.old.all.now) + lots < 2 ^ 32 }
        ensures same { rows.new.all.ghost_name ≡ rows.old.all.ghost_name }
        ensures rows { RowsMade (with_share self.now.settings self.now.terms.direction self.now.number orders.now place lots (take rows.old.made rows.old.all.now)) rows.old.all.now rows.new.all.now rows.new.made }
    {
        if lots > 0 {
            rows.add(self.row_with(orders, place, lots));
        }
    }

    /// Adds the shares of a round.
    pub(super) fn add_rows(&self, orders: &[Order], places: &[u8], shares: &[u32], rows: &mut Rows)
        requires places { All (λ place. place < length orders.now) places.now }
        requires long { length shares.now ≡ length places.now }
        requires room { length (add_rows self.now.settings self.now.terms.direction self.now.number orders.now places.now shares.now (take rows.old.made rows.old.all.now)) ≤ length rows.old.all.now }
        requires fits { sum_by (λ r. r.lots) (take rows.old.made rows.old.all.now) + sum shares.now < 2 ^ 32 }
        ensures same { rows.new.all.ghost_name ≡ rows.old.all.ghost_name }
        ensures rows { RowsMade (add_rows self.now.settings self.now.terms.direction self.now.number orders.now places.now shares.now (take rows.old.made rows.old.all.now)) rows.old.all.now rows.new.all.now rows.new.made }
    {
        for (&place, &share) in places.iter().zip(shares) {
            self.add_share(orders, place, share, rows);
        }
    }
}
