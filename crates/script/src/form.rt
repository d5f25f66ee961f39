//! Written forms: a word of a line, and words one after another with a space between.
ghost use Rattle.std.specs.Prelude.{◌≡◌, ℕ, ◌^◌, ◌<◌, Bool, true, false, List, ◌∷◌, ◌++◌, length, IfSome, decimal};
ghost use Rattle.std.specs.Str.Iter.{LacksByte};
ghost use Rattle.script.specs.Reads.{ReadsWord, Reads, begins_plain};
ghost use Rattle.script.specs.Words.{rule_word, base_word, followed, numbers};
ghost use Rattle.script.specs.declared.form.Unread.TheVariants.{NoMemory};
ghost use Rattle.std.specs.Option.{option_map};
ghost use Rattle.std.specs.List.{AllByRecursion};
ghost use Rattle.script.specs.Numbers.{number_lacks_space};
ghost use Rattle.std.proofs.Common.{rules};

use pile::BaseKind;
use sharing::Rule;
use std::alloc::{AllocFailed, Global};

/// Why a text was not read: it is no written form, or memory ran out.
#[derive(Clone, Copy, Debug, PartialEq, Eq)]
pub enum Unread {
    NoForm,
    NoMemory,
}

/// A value that is written as one word.
///
/// It is no `FromStr`: that trait has no law, and reading words in a row needs `plain`.
pub trait Word: Sized {
    ghost fits: { Self → Type 0 };

    ghost form: { Self → List ℕ };

    fn read(text: &str) -> Option<Self>
        ensures { ReadsWord fits form text.now result };

    ghost plain: { (x : Self) → fits x → LacksByte 32 (form x) };
}

impl Word for u32 {
    ghost fits = { λ n. n < 2 ^ 32 };

    ghost form = { decimal };

    ghost plain = { number_lacks_space };

    fn read(text: &str) -> Option<u32> {
        if !is_plain(text.as_bytes()) {
            return None;
        }
        text.parse().ok()
    }
}

impl Word for Rule {
    ghost fits = { λ _. Unit {0} };

    ghost form = { rule_word };

    ghost plain = { Prim.search rules };

    fn read(text: &str) -> Option<Rule> {
        match text {
            "time" => Some(Rule::Time),
            "prorata" => Some(Rule::ProRata),
            "parity" => Some(Rule::Parity),
            _ => None,
        }
    }
}

impl Word for BaseKind {
    ghost fits = { λ _. Unit {0} };

    ghost form = { base_word };

    ghost plain = { Prim.search rules };

    fn read(text: &str) -> Option<BaseKind> {
        match text {
            "limit" => Some(BaseKind::Sheet),
            "pots" => Some(BaseKind::Pots),
            _ => None,
        }
    }
}

/// A value that is written as words with a space between each two.
pub trait Written: Sized {
    // Whether reading it may need memory.
    ghost allocates: { Bool };

    ghost fits: { Self → Type 0 };

    ghost form: { Self → List ℕ };

    fn read(heap: Global, text: &str) -> Result<Self, Unread>
        ensures { Reads allocates fits form text.now result };
}

/// One word, the last of a line.
#[derive(Drop)]
pub struct Last<A>(pub A);

impl<A: Word> Written for Last<A> {
    ghost allocates = { false };

    ghost fits = { λ x. A.Word.fits x.0 };

    ghost form = { λ x. A.Word.form x.0 };

    fn read(_heap: Global, text: &str) -> Result<Last<A>, Unread> {
        let word = A::read(text).ok_or(Unread::NoForm)?;
        Ok(Last(word))
    }
}

/// One word, and what follows it.
#[derive(Drop)]
pub struct Then<A, B>(pub A, pub B);

impl<A: Word + Drop, B: Written> Written for Then<A, B> {
    ghost allocates = { B.Written.allocates };

    ghost fits = { λ x. A.Word.fits x.0 × B.Written.fits x.1 };

    ghost form = { λ x. A.Word.form x.0 ++ (32 ∷ B.Written.form x.1) };

    fn read(heap: Global, text: &str) -> Result<Then<A, B>, Unread> {
        let (word, after) = text.split_once(' ').ok_or(Unread::NoForm)?;
        let first = A::read(word).ok_or(Unread::NoForm)?;
        let rest = B::read(heap, after)?;
        Ok(Then(first, rest))
    }
}

/// One word, and what follows it, if anything does.
#[derive(Drop)]
pub struct ThenMore<A, B>(pub A, pub Option<B>);

impl<A: Word + Drop, B: Written> Written for ThenMore<A, B> {
    ghost allocates = { B.Written.allocates };

    ghost fits = { λ x. A.Word.fits x.0 × IfSome x.1 B.Written.fits };

    ghost form = { λ x. followed (A.Word.form x.0) (option_map B.Written.form x.1) };

    fn read(heap: Global, text: &str) -> Result<ThenMore<A, B>, Unread> {
        let Some((word, after)) = text.split_once(' ') else {
            let first = A::read(text).ok_or(Unread::NoForm)?;
            return Ok(ThenMore(first, None));
        };
        let first = A::read(word).ok_or(Unread::NoForm)?;
        let more = B::read(heap, after)?;
        Ok(ThenMore(first, Some(more)))
    }
}

/// Numbers, at least one.
#[derive(Drop)]
pub struct Numbers(pub Vec<u32>);

impl Written for Numbers {
    ghost allocates = { true };

    ghost fits = { λ x. (0 < length x.0.items) × AllByRecursion (λ n. n < 2 ^ 32) x.0.items };

    ghost form = { λ x. numbers x.0.items };

    fn read(heap: Global, text: &str) -> Result<Numbers, Unread> {
        let mut all = Vec::new(heap);
        for word in text.split(' ') {
            let number = u32::read(word).ok_or(Unread::NoForm)?;
            all.push(number)?;
        }
        Ok(Numbers(all))
    }
}

impl<T: Drop> From<AllocFailed<T>> for Unread {
    ghost from_gives = { λ _ y. y ≡ NoMemory };

    fn from(_error: AllocFailed<T>) -> Unread {
        Unread::NoMemory
    }
}

/// Whether digits begin as a number is written: no sign, and no zero before others.
fn is_plain(digits: &[u8]) -> bool
    ensures { result ≡ begins_plain digits.now }
{
    !matches!(digits, [] | [b'+', ..] | [b'0', _, ..])
}
