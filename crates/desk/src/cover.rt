//! What a day asks of its clearing.
// Two functions, and not the trait's calls at each place: here what is asked is pinned for every number of lots, 0 too, which no placed order has.
ghost use Rattle.std.specs.Prelude.{◌≡◌, if◌then◌else◌};
ghost use Rattle.clearing.specs.Book.{can_release, can_reserve, released, reserved};
ghost use Rattle.clearing.specs.Makeup.{returned, taken};

use clearing::Clearing;

/// Reserves lots for a participant, and says whether they were free.
pub(crate) fn reserve_lots<C: Clearing>(clearing: &mut C, participant: u32, lots: u32) -> bool
    ensures answer { result ≡ can_reserve (C.Clearing.book clearing.old) participant lots }
    ensures after { C.Clearing.book clearing.new ≡ reserved (C.Clearing.book clearing.old) participant lots }
    ensures inside { C.Clearing.makeup clearing.new ≡ (if can_reserve (C.Clearing.book clearing.old) participant lots then taken (C.Clearing.makeup clearing.old) participant lots else C.Clearing.makeup clearing.old) }
{
    clearing.reserve(participant, lots)
}

/// Releases lots of a participant. A no changes nothing.
pub(crate) fn release_lots<C: Clearing>(clearing: &mut C, participant: u32, lots: u32)
    ensures after { C.Clearing.book clearing.new ≡ released (C.Clearing.book clearing.old) participant lots }
    ensures inside { C.Clearing.makeup clearing.new ≡ (if can_release (C.Clearing.book clearing.old) participant lots then returned (C.Clearing.makeup clearing.old) participant lots else C.Clearing.makeup clearing.old) }
{
    clearing.release(participant, lots);
}
