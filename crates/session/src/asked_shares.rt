//! The shares that a sharing rule is asked for.
ghost use Rattle.std.specs.Prelude.{IfOk};
ghost use Rattle.session.specs.Replies.{reply_of};
ghost use Rattle.session.specs.Obeyed.{Shared};

use script::Answer;
use sharing::{Rule, SharingRule};
use std::alloc::{AllocError, Global};

/// What the rule answers with a share array of `room` numbers.
///
/// At most 64 sums are shared among, so with a longer array every rule says no.
pub fn shared(
    heap: Global,
    rule: Rule,
    sums: &[u32],
    lots: u32,
    room: u32,
) -> Result<Answer, AllocError>
    ensures { IfOk result (λ a. Shared rule sums.now lots room (reply_of a)) }
{
    if room > 64 {
        return Ok(Answer::Verdict(false));
    }
    // Of a fixed length, not a `Vec`: a rule that says no must not be able to fail for want of memory.
    let mut buffer = [0u32; 64];
    // `as`, since `usize` has no `From<u32>`, and a `try_from` could not fail.
    let out = &mut buffer[..room as usize];
    if !rule.share(sums, lots, out) {
        return Ok(Answer::Verdict(false));
    }
    Ok(Answer::Shares(Vec::from_slice(heap, out)?))
}
