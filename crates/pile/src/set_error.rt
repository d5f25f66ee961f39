//! What a setter of a pile refuses with.
ghost use Rattle.std.specs.Prelude.{◌≡◌};
ghost use Rattle.pile.specs.declared.set_error.SetError.TheVariants.{Refused};

use clearing::Refusal;

/// Why a setter of a pile changes nothing.
#[derive(Clone, Copy, Debug, PartialEq, Eq)]
pub enum SetError {
    /// The part refuses the figure.
    Refused(Refusal),
    /// The pile has no part with such a figure.
    NoSuchPart,
}

impl From<Refusal> for SetError {
    ghost from_gives = { λ refusal e. e ≡ Refused refusal };

    fn from(refusal: Refusal) -> SetError {
        SetError::Refused(refusal)
    }
}
