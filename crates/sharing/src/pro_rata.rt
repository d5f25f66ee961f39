//! Sharing pro rata.
ghost use Rattle.std.specs.Prelude.{◌≡◌, ◌*◌, ◌/◌, ◌<◌, ◌≤◌, length, sum};
ghost use Rattle.sharing.specs.ProRata.{pro_rata_shares, quotas};
ghost use Rattle.sharing.specs.Proportion.{pro_rata_divides};

use crate::answer::answer;
use crate::request::{Request, total};
use crate::sharing_rule::SharingRule;

/// Each order gets its proportion of the lots, rounded down; the missing lots go one each, in list order.
#[derive(Clone, Copy, Debug, PartialEq, Eq)]
pub struct ProRata;

/// The proportion of `q` that is due to the sum `v` of `whole`, rounded down.
fn quota(v: u32, q: u32, whole: u32) -> u32
    requires { (q ≤ whole) × (0 < whole) }
    ensures { result ≡ v * q / whole }
{
    // `try_from` is no plainer: the proportion fits, so its refusal could never come.
    (u64::from(v) * u64::from(q) / u64::from(whole)) as u32
}

impl Request<'_> {
    /// Writes the proportion of each sum.
    fn write_quotas(&self, out: &mut [u32])
        requires { length out.old ≡ length self.now.sums.now }
        ensures after { out.new ≡ quotas self.now.sums.now self.now.lots }
        ensures bound { sum out.new ≤ self.now.lots }
    {
        let q = self.lots;
        let whole = total(self.sums);
        self.write_parts(|v| quota(v, q, whole), out);
    }
}

impl SharingRule for ProRata {
    ghost shares = { λ _ sums q. pro_rata_shares sums q };

    ghost divides = { λ rule sums q lawful. pro_rata_divides sums q lawful.least lawful.covered };

    fn share(&self, sums: &[u32], q: u32, out: &mut [u32]) -> bool {
        answer(sums, q, out, |request, out| {
            request.write_quotas(out);
            request.complete(out);
        })
    }
}
