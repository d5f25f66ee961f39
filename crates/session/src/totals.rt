//! Totals of a clearing.
ghost use Rattle.std.specs.Prelude.{◌≡◌, ◌≤◌};
ghost use Rattle.session.specs.Totals.{total_below};

use clearing::Clearing;

/// The free lots of the participants below `count` together.
// Apart from `totals`, whose own text has how many participants there are; two, since each asks another question.
fn free_below<C: Clearing>(clearing: &C, count: u32) -> u64
    requires { count ≤ 64 }
    ensures { result ≡ total_below count (C.Clearing.book clearing.now).free }
{
    (0..count)
        .map(|participant| u64::from(clearing.free(participant)))
        .sum()
}

/// The held lots of the participants below `count` together.
fn held_below<C: Clearing>(clearing: &C, count: u32) -> u64
    requires { count ≤ 64 }
    ensures { result ≡ total_below count (C.Clearing.book clearing.now).held }
{
    (0..count)
        .map(|participant| u64::from(clearing.held(participant)))
        .sum()
}

/// The free and the held lots of participants 0 to 63 together.
pub fn totals<C: Clearing>(clearing: &C) -> (u64, u64)
    ensures free { result.0 ≡ total_below 64 (C.Clearing.book clearing.now).free }
    ensures held { result.1 ≡ total_below 64 (C.Clearing.book clearing.now).held }
{
    (free_below(clearing, 64), held_below(clearing, 64))
}
