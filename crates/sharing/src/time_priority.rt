//! Sharing by time.
ghost use Rattle.std.specs.Prelude.{◌≡◌, length};
ghost use Rattle.sharing.specs.Time.{time_shares};
ghost use Rattle.sharing.specs.InTurn.{time_divides};

use crate::answer::answer;
use crate::request::Request;
use crate::sharing_rule::SharingRule;

/// The earliest order takes all it can, then the next.
#[derive(Clone, Copy, Debug, PartialEq, Eq)]
pub struct Time;

impl Request<'_> {
    /// Writes what each sum takes of the lots, the earliest first.
    fn take_in_turn(&self, out: &mut [u32])
        requires { length out.old ≡ length self.now.sums.now }
        ensures { out.new ≡ time_shares self.now.sums.now self.now.lots }
    {
        let mut left = self.lots;
        // By an index, in one pass: what `iter_mut().zip(..)` writes is not known after the loop.
        for (i, share) in out.iter_mut().enumerate() {
            *share = self.sums[i].min(left);
            left -= *share;
        }
    }
}

impl SharingRule for Time {
    ghost shares = { λ _ sums q. time_shares sums q };

    ghost divides = { λ rule sums q lawful. time_divides sums q lawful.covered };

    fn share(&self, sums: &[u32], q: u32, out: &mut [u32]) -> bool {
        answer(sums, q, out, |request, out| request.take_in_turn(out))
    }
}
