//! How a sharing rule answers.
ghost use Rattle.std.specs.Prelude.{◌≡◌, ℕ, List, length, if◌then◌else◌, Decides};
ghost use Rattle.sharing.specs.Request.{Lawful};

use crate::request::Request;

/// Writes the shares of a lawful request by `write`, or says no and leaves `out` as it was.
pub(crate) fn answer<F: FnOnce(&Request<'_>, &mut [u32])>(
    sums: &[u32],
    q: u32,
    out: &mut [u32],
    write: F,
) -> bool
    ghost shares: { List ℕ → ℕ → List ℕ }
    requires can { (r : _) (o : _) → length o.now ≡ length r.now.sums.now → F.pre write r o }
    requires writes { (r : _) (o : _) (p : _) → F.post write r o tt p → p.now ≡ shares r.now.sums.now r.now.lots }
    ensures answer { Decides result (Lawful sums.now q × (length out.old ≡ length sums.now)) }
    ensures after { out.new ≡ (if result then shares sums.now q else out.old) }
{
    let Some(request) = Request::new(sums, q, out.len()) else {
        return false;
    };
    write(&request, out);
    true
}
