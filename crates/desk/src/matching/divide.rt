//! The lots of a round and their shares, by the sharing rule.
ghost use Rattle.std.specs.Prelude.{◌≡◌, ◌^◌, ◌<◌, min, sum};
ghost use Rattle.sharing.specs.Request.{Lawful};

use arrayvec::ArrayVec;
use sharing::SharingRule;

/// The lots that a round divides: what is left, or all that is visible.
pub(super) fn lots_to_divide(left: u32, sums: &[u32]) -> u32
    requires { sum sums.now < 2 ^ 32 }
    ensures { result ≡ min left (sum sums.now) }
{
    left.min(sums.iter().sum())
}

/// The shares of these lots, one for each visible sum. The request is lawful, so the rule answers.
pub(super) fn divide<R: SharingRule>(rule: &R, sums: &[u32], lots: u32) -> ArrayVec<u32, 64>
    requires { Lawful sums.now lots }
    ensures { result.items ≡ R.SharingRule.shares rule.now sums.now lots }
{
    let mut shares = ArrayVec::from([0; 64]);
    shares.truncate(sums.len());
    rule.share(sums, lots, &mut shares);
    shares
}
