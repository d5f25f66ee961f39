//! What a share of a round does to an order.
// The share stays a parameter, with what is asked of it: an order with its share would be made and taken apart in each step.
ghost use Rattle.std.specs.Prelude.{◌≡◌, ◌+◌, ◌^◌, ◌<◌, ◌≤◌};
ghost use Rattle.model.specs.Market.{lots_of};
ghost use Rattle.model.specs.Rounds.{after_share, concluded, refills, shown_again, spent};

use orders::{Event, Order, next_state, visible_sum};

/// An order with some of its visible lots concluded.
fn concluded(order: &Order, lots: u32) -> Order
    requires { (lots ≤ order.now.visible) × (lots_of order.now < 2 ^ 32) }
    ensures { result ≡ concluded lots order.now }
{
    let visible = order.visible - lots;
    Order {
        state: next_state(
            order.state,
            Event::Conclusion {
                left: visible + order.hidden,
            },
        ),
        visible,
        ..*order
    }
}

/// Whether the visible lots of an order are spent, and it has hidden ones.
fn is_spent(order: &Order) -> bool
    ensures { result ≡ spent order.now }
{
    order.visible == 0 && order.hidden > 0
}

/// An order that shows lots again.
fn shown_again(order: &Order) -> Order
    ensures { result ≡ shown_again order.now }
{
    let visible = visible_sum(order.terms.sum, order.terms.percent).min(order.hidden);
    Order {
        visible,
        hidden: order.hidden - visible,
        ..*order
    }
}

/// Whether an order shows lots again after its share of a round.
pub(super) fn refills(order: &Order, share: u32) -> bool
    requires { (share ≤ order.now.visible) × (lots_of order.now < 2 ^ 32) }
    ensures { result ≡ refills share order.now }
{
    share > 0 && is_spent(&concluded(order, share))
}

/// An order after its share of a round.
pub(super) fn after_share(order: &Order, share: u32) -> Order
    requires { (share ≤ order.now.visible) × (lots_of order.now < 2 ^ 32) }
    ensures { result ≡ after_share share order.now }
{
    if share == 0 {
        return *order;
    }
    let order = concluded(order, share);
    if is_spent(&order) {
        shown_again(&order)
    } else {
        order
    }
}
