//! An order that enters a day.
// These steps leave the day unlawful until the order is registered or put back, so they require what they need of it.
ghost use Rattle.std.specs.Prelude.{◌≡◌, ◌+◌, ◌≤◌, [], length, take};
ghost use Rattle.desk.specs.Entry.{day_met, meeting_in};
ghost use Rattle.desk.specs.Kept.{Sound};
ghost use Rattle.desk.specs.Matching.{EntryReady, Stands, market_of};
ghost use Rattle.model.specs.Days.{written};
ghost use Rattle.model.specs.Place.{opposite};
ghost use Rattle.model.specs.Rounds.{meeting};
ghost use Rattle.model.specs.States.{day_of};

use crate::matching::{Entering, Rows};
use model::{DayState, MOST_ORDERS};
use orders::{Order, Row, Terms};
use sharing::SharingRule;

/// What an entry left: the lots left of the order that entered, and how many rows it made.
#[derive(Clone, Copy)]
struct Met {
    left: u32,
    made: usize,
}

/// Lets an order meet the queue of the first `count` orders. Its rows go to the front of `rows`.
// Apart from `enter`: of rows that are made and let go in one function a proof knows the register's length alone.
fn meet_queue<R: SharingRule>(
    rule: &R,
    entering: &Entering,
    orders: &mut [Order; MOST_ORDERS],
    queue: &mut [u8; MOST_ORDERS],
    count: usize,
    rows: &mut [Row],
) -> Met
    requires few { count ≤ 128 }
    requires ready { EntryReady entering.now.terms (market_of (take count orders.old) (take count queue.old) []) rows.old }
    ensures left { result.left ≡ (meeting (R.SharingRule.shares rule.now) entering.now.settings entering.now.terms entering.now.number (market_of (take count orders.old) (take count queue.old) [])).left }
    ensures market { Stands (meeting (R.SharingRule.shares rule.now) entering.now.settings entering.now.terms entering.now.number (market_of (take count orders.old) (take count queue.old) [])).market (take count orders.new) (take count queue.new) rows.old rows.new result.made }
    ensures same { (length orders.new ≡ length orders.old) × (length queue.new ≡ length queue.old) }
    ensures within { (result.left ≤ entering.now.terms.sum) × (result.made ≤ length rows.old) }
{
    let mut rows = Rows { all: rows, made: 0 };
    let left = entering.meet(rule, &mut orders[..count], &mut queue[..count], &mut rows);
    Met {
        left,
        made: rows.made,
    }
}

/// Lets the order with these terms and this number meet the queue. Its rows go to the register from the first free one on. Returns the lots left of it.
pub(crate) fn enter<R: SharingRule>(
    state: &mut DayState,
    rule: &R,
    register: &mut [Row],
    terms: &Terms,
    number: u32,
) -> u32
    requires few { state.old.count ≤ 128 }
    requires sound { Sound state.old }
    requires most { terms.now.sum ≤ 1000000 }
    requires room { state.old.used + opposite terms.now.direction (day_of state.old).orders ≤ length register.old }
    ensures left { result ≡ (meeting_in (R.SharingRule.shares rule.now) (day_of state.old) terms.now number).left }
    ensures day { day_of state.new ≡ day_met (day_of state.old) (meeting_in (R.SharingRule.shares rule.now) (day_of state.old) terms.now number) }
    ensures count { state.new.count ≡ state.old.count }
    ensures orders { length (day_of state.new).orders ≡ length (day_of state.old).orders }
    ensures queue { length (day_of state.new).queue ≡ length (day_of state.old).queue }
    ensures register { register.new ≡ written register.old state.old.used (meeting_in (R.SharingRule.shares rule.now) (day_of state.old) terms.now number).market.rows }
    ensures within { result ≤ terms.now.sum }
{
    let entering = Entering {
        settings: state.settings,
        terms: *terms,
        number,
    };
    let met = meet_queue(
        rule,
        &entering,
        &mut state.orders,
        &mut state.queue,
        state.count,
        &mut register[state.used..],
    );
    state.used += met.made;
    met.left
}
