//! What a script's commands answer, and how it is written.
ghost use Rattle.std.specs.Prelude.{◌≡◌, ◌++◌, IfOk, Some, string_bytes, codes};
ghost use Rattle.std.specs.Fmt.{DisplaysOnOk};
ghost use Rattle.script.specs.Answers.{answer_line, reason_text, verdict_word, each_spaced};

use crate::command::Verb;
use clearing::Refusal;
use std::alloc::{AllocError, Global};
use std::fmt;

/// Why a line changed nothing and answers `bad`.
#[derive(Clone, Copy, Debug, PartialEq, Eq)]
pub enum Reason {
    /// It is longer than 4,096 bytes.
    TooLong,
    /// Its bytes are no text.
    NotText,
    /// Its first word begins no command.
    Unknown,
    /// It is no form of the command that its first word begins.
    Usage(Verb),
    /// A clearing has at most two cap layers.
    TooManyCaps,
    /// Limits are set over a limit sheet.
    NoLimits,
    /// Pots are set and asked over two pots.
    NoPots,
    /// The clearing has no such cap layer.
    NoLayer,
    /// An order has 1 to 1,000,000 lots and shows 0 to 100 percent.
    NoOrder,
}

/// What a command answers.
#[derive(Drop)]
pub enum Answer {
    ClearingReady,
    Set,
    Refused(Refusal),
    Cover {
        participant: u32,
        free: u32,
        held: u32,
    },
    CoverAll {
        free: u64,
        held: u64,
    },
    Need {
        participant: u32,
        visible: u32,
        hidden: u32,
        covered: bool,
    },
    Left {
        participant: u32,
        money: u32,
        securities: u32,
    },
    Verdict(bool),
    Shares(Vec<u32>),
    Bad {
        line: u64,
        reason: Reason,
    },
}

impl Reason {
    /// The reason for a reader.
    fn text(self) -> &'static str
        ensures { result.now ≡ reason_text self }
    {
        match self {
            Reason::TooLong => "longer than 4096 bytes",
            Reason::NotText => "not text",
            Reason::Unknown => "no such command",
            Reason::Usage(verb) => verb.usage(),
            Reason::TooManyCaps => "at most 2 cap layers",
            Reason::NoLimits => "no limit sheet in this clearing",
            Reason::NoPots => "no pots in this clearing",
            Reason::NoLayer => "no such cap layer in this clearing",
            Reason::NoOrder => "an order has 1 to 1000000 lots and 0 to 100 percent",
        }
    }
}

impl fmt::Display for Reason {
    ghost output = { λ reason. Some (reason_text reason) };

    fn fmt<W: fmt::Write>(&self, f: &mut fmt::Formatter<W>) -> fmt::Result {
        f.write_str(self.text())
    }
}

/// The word of a verdict.
fn verdict(said: bool) -> &'static str
    ensures { result.now ≡ verdict_word said }
{
    if said { "yes" } else { "no" }
}

/// Writes shares, each after a space.
fn write_shares<W: fmt::Write>(shares: &[u32], f: &mut fmt::Formatter<W>) -> fmt::Result
    ensures { DisplaysOnOk W.write_str_gives f.old result (Some (codes "shares" ++ each_spaced shares.now)) f.new }
{
    f.write_str("shares")?;
    for share in shares {
        write!(f, " {share}")?;
    }
    Ok(())
}

impl fmt::Display for Answer {
    ghost output = { λ answer. Some (answer_line answer) };

    fn fmt<W: fmt::Write>(&self, f: &mut fmt::Formatter<W>) -> fmt::Result {
        match self {
            Answer::ClearingReady => f.write_str("clearing ok"),
            Answer::Set => f.write_str("set"),
            Answer::Refused(refusal) => write!(f, "refused {}", refusal.number()),
            Answer::Cover {
                participant,
                free,
                held,
            } => write!(f, "cover {participant} free {free} held {held}"),
            Answer::CoverAll { free, held } => write!(f, "cover all free {free} held {held}"),
            Answer::Need {
                participant,
                visible,
                hidden,
                covered,
            } => {
                let word = verdict(*covered);
                write!(
                    f,
                    "need {participant} visible {visible} hidden {hidden} {word}"
                )
            }
            Answer::Left {
                participant,
                money,
                securities,
            } => write!(
                f,
                "left {participant} money {money} securities {securities}"
            ),
            Answer::Verdict(said) => f.write_str(verdict(*said)),
            Answer::Shares(shares) => write_shares(shares.as_slice(), f),
            Answer::Bad { line, reason } => write!(f, "bad line {line}: {reason}"),
        }
    }
}

/// The line that an answer is written as.
pub fn write(heap: Global, answer: &Answer) -> Result<String, AllocError>
    ensures { IfOk result (λ s. string_bytes s ≡ answer_line answer.now) }
{
    format!(in heap; "{answer}")
}
