//! One participant's limit and what is held of it.
ghost use Rattle.std.specs.Prelude.{◌≡◌, ◌≤◌, is_ok, IfOk, nat_le};

use crate::cover::Refusal;

/// The most lots that a participant can be given.
pub(crate) const MOST: u32 = 1_000_000_000;

/// A limit and the lots held of it.
#[derive(Clone, Copy, Debug, PartialEq, Eq)]
pub(crate) struct Line {
    pub(crate) limit: u32,
    pub(crate) held: u32,
    ghost within: { (held ≤ limit) × (limit ≤ 1000000000) },
}

impl Line {
    /// A line of which nothing is held, if the limit is at most 1,000,000,000.
    pub(crate) fn new(limit: u32) -> Result<Line, Refusal>
        ensures fits { is_ok result ≡ nat_le limit 1000000000 }
        ensures line { IfOk result (λ line. (line.limit ≡ limit) × (line.held ≡ 0)) }
    {
        if limit > MOST {
            return Err(Refusal::FigureNotSettable);
        }
        Ok(Line { limit, held: 0 })
    }
}
