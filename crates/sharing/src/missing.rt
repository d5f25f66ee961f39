//! Parts of a request, and the lots that they leave over.
ghost use Rattle.std.specs.Prelude.{◌≡◌, ◌+◌, ◌≤◌, max, length, sum};
ghost use Rattle.std.specs.List.{AllZip};
ghost use Rattle.sharing.specs.Missing.{complete as completed, extra, hand_out};

use crate::request::{Request, total};

/// One of the missing lots, if there is one, for a part below its sum.
fn extra_lot(v: u32, part: u32, missing: u32) -> u32
    ensures value { result ≡ extra v part missing }
    ensures enough { result ≤ missing }
    ensures bound { part + result ≤ max part v }
{
    if part < v { missing.min(1) } else { 0 }
}

impl Request<'_> {
    /// Writes the part of each sum.
    pub(crate) fn write_parts<F: Fn(u32) -> u32>(&self, part_of: F, out: &mut [u32])
        requires can { F.IsAlwaysCallable part_of }
        requires long { length out.old ≡ length self.now.sums.now }
        ensures { AllZip (F.post part_of) self.now.sums.now out.new }
    {
        // By an index, in one pass, as in `hand_out`.
        for (i, part) in out.iter_mut().enumerate() {
            *part = part_of(self.sums[i]);
        }
    }

    /// Hands out the missing lots, one each in list order, to the parts below their sums.
    fn hand_out(&self, missing: u32, parts: &mut [u32])
        requires { length parts.old ≡ length self.now.sums.now }
        ensures { parts.new ≡ hand_out self.now.sums.now parts.old missing }
    {
        let mut left = missing;
        // With `iter_mut().zip(..)` the proof did not close: what it wrote is not known after the loop.
        for (i, part) in parts.iter_mut().enumerate() {
            let more = extra_lot(self.sums[i], *part, left);
            *part += more;
            left -= more;
        }
    }

    /// Hands out the lots that the parts lack to those asked for.
    pub(crate) fn complete(&self, parts: &mut [u32])
        requires long { length parts.old ≡ length self.now.sums.now }
        requires low { sum parts.old ≤ self.now.lots }
        ensures { parts.new ≡ completed self.now.sums.now parts.old self.now.lots }
    {
        let missing = self.lots - total(parts);
        self.hand_out(missing, parts);
    }
}
