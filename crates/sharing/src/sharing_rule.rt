//! What a sharing rule is.
ghost use Rattle.std.specs.Prelude.{◌≡◌, ℕ, List, length, if◌then◌else◌, Decides};
ghost use Rattle.sharing.specs.Request.{Divides, Lawful};

/// A way to divide lots among visible sums in queue order.
pub trait SharingRule {
    // The share of each sum, for each list of sums and each number of lots.
    ghost shares: { Self → List ℕ → ℕ → List ℕ };

    /// Writes the shares of `q` lots to `out`, or says no to a request that is not lawful and leaves `out` as it was.
    // A yes or no, and no Result: a no has one cause and tells nothing else, and the array is the caller's.
    fn share(&self, sums: &[u32], q: u32, out: &mut [u32]) -> bool
        ensures answer { Decides result (Lawful sums.now q × (length out.old ≡ length sums.now)) }
        ensures after { out.new ≡ (if result then shares self.now sums.now q else out.old) };

    ghost divides: { (rule : Self) (sums : List ℕ) (q : ℕ) → Lawful sums q → Divides sums q (shares rule sums q) };
}
