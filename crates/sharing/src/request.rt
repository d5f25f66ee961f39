//! What a sharing rule is asked.
ghost use Rattle.std.specs.Prelude.{◌≡◌, ◌^◌, ◌<◌, ◌≤◌, ◌↔◌, length, IsTrue, IsSome, IfSome, sum};
ghost use Rattle.sharing.specs.Request.{Lawful, VisibleSum};
ghost use Rattle.std.specs.List.{AllByRecursion};

/// The most sums in a request.
const MAX_SUMS: usize = 64;

/// The largest visible sum.
pub(crate) const MAX_SUM: u32 = 1_000_000;

/// Lots to divide among visible sums in queue order. `new` makes one only where that is lawful; what the steps rest on is kept.
// The shares' place is no field: no plainer, as each function would promise that the `&mut` stays the same one.
#[derive(Clone, Copy)]
pub(crate) struct Request<'a> {
    pub(crate) sums: &'a [u32],
    pub(crate) lots: u32,
    ghost least: { 1 ≤ lots },
    ghost covered: { lots ≤ sum sums.now },
    ghost fits: { sum sums.now < 2 ^ 32 },
}

impl<'a> Request<'a> {
    /// A request for `lots` of `sums`, if it is lawful and there is room for as many shares.
    pub(crate) fn new(sums: &'a [u32], lots: u32, room: usize) -> Option<Request<'a>>
        ensures lawful { IsSome result ↔ (Lawful sums.now lots × (room ≡ length sums.now)) }
        ensures same { IfSome result (λ r. (r.sums.now ≡ sums.now) × (r.lots ≡ lots)) }
    {
        if room == sums.len() && is_lawful(sums, lots) {
            Some(Request { sums, lots })
        } else {
            None
        }
    }
}

/// Whether `v` is from 1 to `MAX_SUM`.
fn is_visible(v: u32) -> bool
    ensures { IsTrue result ↔ VisibleSum v }
{
    (1..=MAX_SUM).contains(&v)
}

/// Whether each of `sums` is from 1 to `MAX_SUM`.
fn all_visible(sums: &[u32]) -> bool
    ensures { IsTrue result ↔ AllByRecursion VisibleSum sums.now }
{
    sums.iter().all(|&v| is_visible(v))
}

/// The total of `lots`.
pub(crate) fn total(lots: &[u32]) -> u32
    requires { sum lots.now < 2 ^ 32 }
    ensures { result ≡ sum lots.now }
{
    lots.iter().sum()
}

/// Whether `q` lots may be divided among `sums`.
fn is_lawful(sums: &[u32], q: u32) -> bool
    ensures { IsTrue result ↔ Lawful sums.now q }
{
    (1..=MAX_SUMS).contains(&sums.len()) && q > 0 && all_visible(sums) && q <= total(sums)
}
