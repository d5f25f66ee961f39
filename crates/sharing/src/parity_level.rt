//! Sharing by parity.
ghost use Rattle.std.specs.Prelude.{◌≡◌, ◌<◌, ◌≤◌, length, sum, nat_le};
ghost use Rattle.sharing.specs.Parity.{capped, level as level_of, parity_shares};
ghost use Rattle.sharing.specs.Levels.{parity_divides};

use crate::answer::answer;
use crate::request::{MAX_SUM, Request};
use crate::sharing_rule::SharingRule;

/// Each order gets up to one common level; the rest goes one each, in list order, to those above it.
#[derive(Clone, Copy, Debug, PartialEq, Eq)]
pub struct Parity;

impl Request<'_> {
    /// The total of the sums, each counted up to `t`.
    fn capped_total(&self, t: u32) -> u32
        ensures { result ≡ sum (capped self.now.sums.now t) }
    {
        self.sums.iter().map(|&v| v.min(t)).sum()
    }

    /// Whether `t` is at most the common level.
    fn is_up_to_level(&self, t: u32) -> bool
        requires { t ≤ 1000000 }
        ensures { result ≡ nat_le t (level_of self.now.sums.now self.now.lots) }
    {
        self.capped_total(t) <= self.lots
    }

    /// The common level, found by halving.
    fn level(&self) -> u32
        ensures value { result ≡ level_of self.now.sums.now self.now.lots }
        ensures fits { sum (capped self.now.sums.now result) ≤ self.now.lots }
    {
        // No method is plainer: the library halves slices alone (`partition_point`), and the levels stand in none.
        let mut low = 0;
        let mut high = MAX_SUM;
        while low < high {
            let mid = high - (high - low) / 2;
            if self.is_up_to_level(mid) {
                low = mid;
            } else {
                high = mid - 1;
            }
        }
        low
    }

    /// Writes each sum, or `t` where the sum is larger.
    fn write_capped(&self, t: u32, out: &mut [u32])
        requires { length out.old ≡ length self.now.sums.now }
        ensures { out.new ≡ capped self.now.sums.now t }
    {
        self.write_parts(|v| v.min(t), out);
    }
}

impl SharingRule for Parity {
    ghost shares = { λ _ sums q. parity_shares sums q };

    ghost divides = { λ rule sums q lawful. parity_divides sums q lawful.each lawful.covered };

    fn share(&self, sums: &[u32], q: u32, out: &mut [u32]) -> bool {
        answer(sums, q, out, |request, out| {
            request.write_capped(request.level(), out);
            request.complete(out);
        })
    }
}
