//! The visible part of an order's sum.
ghost use Rattle.std.specs.Prelude.{◌≡◌};
ghost use Rattle.orders.specs.Visible.{share_of, visible_sum};

/// The lots of `sum` that an order with this visible percent shows at a time.
///
/// A percent above 100, which no lawful order has, shows the whole sum.
pub fn visible_sum(sum: u32, percent: u32) -> u32
    ensures { result ≡ visible_sum sum percent }
{
    if percent == 0 {
        return sum;
    }
    // `as`, and no `try_from`, whose refusal could never come: this is at most the sum.
    share(sum, percent).min(u64::from(sum)) as u32
}

/// `sum` × `percent` / 100 rounded up.
fn share(sum: u32, percent: u32) -> u64
    ensures { result ≡ share_of sum percent }
{
    (u64::from(sum) * u64::from(percent) + 99) / 100
}
