//! What every clearing answers, and why a figure is refused.
ghost use Rattle.std.specs.Prelude.{◌≡◌, ℕ, ◌+◌, ◌<◌, ◌≤◌, if◌then◌else◌};
ghost use Rattle.clearing.specs.Book.{Book, can_reserve, reserved, can_release, released};
ghost use Rattle.clearing.specs.Makeup.{Makeup, shown, taken, returned};
ghost use Rattle.clearing.specs.Refused.{number_of};

/// Why a setter changes nothing.
#[derive(Clone, Copy, Debug, PartialEq, Eq)]
pub enum Refusal {
    /// No such participant, a figure above 1,000,000,000, or lots held.
    FigureNotSettable,
}

impl Refusal {
    /// The refusal's number.
    pub fn number(self) -> u32
        ensures { result ≡ number_of self }
    {
        // The table of numbers is the rule itself.
        match self {
            Refusal::FigureNotSettable => 19,
        }
    }
}

/// Cover of participants 0 to 63: free and held lots of each, together at most 1,000,000,000.
///
/// `book` is every participant's free and held lots, and `makeup` all that these hide.
pub trait Clearing {
    ghost book: { Self → Book };

    ghost makeup: { Self → Makeup };

    /// The lots that the participant may still reserve.
    fn free(&self, participant: u32) -> u32
        ensures { result ≡ (book self.now).free participant };

    /// The lots that the participant has reserved.
    fn held(&self, participant: u32) -> u32
        ensures { result ≡ (book self.now).held participant };

    /// Moves lots from free to held, if that many are free.
    // A yes or no, and no Result, here and in `release`: a no has one cause and tells nothing else.
    fn reserve(&mut self, participant: u32, lots: u32) -> bool
        ensures answer { result ≡ can_reserve (book self.old) participant lots }
        ensures after { book self.new ≡ reserved (book self.old) participant lots }
        ensures inside { makeup self.new ≡ (if can_reserve (book self.old) participant lots then taken (makeup self.old) participant lots else makeup self.old) };

    /// Moves lots from held to free, if that many are held.
    fn release(&mut self, participant: u32, lots: u32) -> bool
        ensures answer { result ≡ can_release (book self.old) participant lots }
        ensures after { book self.new ≡ released (book self.old) participant lots }
        ensures inside { makeup self.new ≡ (if can_release (book self.old) participant lots then returned (makeup self.old) participant lots else makeup self.old) };

    ghost shows: { (c : Self) → book c ≡ shown (makeup c) };

    ghost bounded: { (c : Self) (p : ℕ) → (book c).free p + (book c).held p ≤ 1000000000 };

    ghost strangers_free: { (c : Self) (p : ℕ) → 63 < p → (book c).free p ≡ 0 };

    ghost strangers_held: { (c : Self) (p : ℕ) → 63 < p → (book c).held p ≡ 0 };
}
