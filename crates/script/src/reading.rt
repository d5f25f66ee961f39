//! A line read to the command that it is the written form of.
ghost use Rattle.std.specs.Prelude.{◌≡◌, true, ◌∷◌, ◌++◌};
ghost use Rattle.std.specs.Str.Iter.{LacksByte};
ghost use Rattle.script.specs.Commands.{Fits, written, line_of};
ghost use Rattle.script.specs.Parses.{BeginsWith, Parses, fault_of};
ghost use Rattle.script.specs.Forms.{listed};
ghost use Rattle.script.specs.Reads.{Reads};
ghost use Rattle.script.specs.Verbs.{allocates};
ghost use Rattle.script.specs.declared.command.Verb.TheVariants.{Clearing, Limit, Pots, Cap, Cover, Need, Left, Reserve, Release, Share};
ghost use Rattle.std.proofs.Common.{rules};

use crate::command::{Command, Verb};
use crate::form::{Last, Numbers, Then, ThenMore, Unread, Written};
use pile::BaseKind;
use sharing::Rule;
use std::alloc::Global;
use std::str::FromStr;

/// The sums that follow, which may be none.
fn sums_of(heap: Global, more: Option<Numbers>) -> Vec<u32>
    ensures { result.items ≡ listed more }
{
    match more {
        Some(Numbers(all)) => all,
        None => Vec::new(heap),
    }
}

/// The command to share, whose sums may be none.
fn share(heap: Global, text: &str) -> Result<Command, Unread>
    ensures { Reads true Fits written (line_of Share text.now) result }
{
    let Then(rule, Then(lots, ThenMore(length, more))) = Written::read(heap, text)?;
    let sums = sums_of(heap, more);
    Ok(Command::Share {
        rule,
        lots,
        length,
        sums,
    })
}

/// Words in a row: each of the first ones followed by the rest.
macro_rules! words {
    ($last:ident) => {
        Last($last)
    };
    ($first:ident, $($more:ident),+) => {
        Then($first, words!($($more),+))
    };
}

/// A command whose fields are words, in the order in which a line has them.
macro_rules! command {
    ($heap:ident, $text:ident => $verb:ident { $($word:ident),+ }) => {
        Written::read($heap, $text).map(|words!($($word),+)| Command::$verb { $($word),+ })
    };
}

/// The command whose first word is `verb`, by what follows it.
fn with_arguments(heap: Global, verb: Verb, text: &str) -> Result<Command, Unread>
    ensures { Reads (allocates verb) Fits written (line_of verb text.now) result }
{
    match verb {
        Verb::Clearing => command!(heap, text => Clearing { base, caps }),
        Verb::Limit => command!(heap, text => Limit { participant, limit }),
        Verb::Pots => command!(heap, text => Pots { participant, money, securities }),
        Verb::Cap => command!(heap, text => Cap { layer, participant, cap }),
        Verb::Cover => command!(heap, text => Cover { participant }),
        Verb::Need => command!(heap, text => Need { participant, sum, percent }),
        Verb::Left => command!(heap, text => Left { participant }),
        Verb::Reserve => command!(heap, text => Reserve { participant, lots }),
        Verb::Release => command!(heap, text => Release { participant, lots }),
        Verb::Share => share(heap, text),
    }
}

/// Why a line is no command.
#[derive(Clone, Copy, Debug, PartialEq, Eq)]
pub enum Fault {
    /// Its first word begins no command.
    Unknown,
    /// It is no form of the command that its first word begins.
    Usage(Verb),
    /// Memory ran out while it was read.
    NoMemory,
}

impl FromStr for Verb {
    type Err = Fault;

    ghost from_str_gives = { BeginsWith };

    fn from_str(text: &str) -> Result<Verb, Fault> {
        match text {
            "clearing" => Ok(Verb::Clearing),
            "limit" => Ok(Verb::Limit),
            "pots" => Ok(Verb::Pots),
            "cap" => Ok(Verb::Cap),
            "cover" => Ok(Verb::Cover),
            "need" => Ok(Verb::Need),
            "left" => Ok(Verb::Left),
            "reserve" => Ok(Verb::Reserve),
            "release" => Ok(Verb::Release),
            "share" => Ok(Verb::Share),
            _ => Err(Fault::Unknown),
        }
    }
}

/// The fault of a line whose first word is `verb`.
fn blamed(verb: Verb, unread: Unread) -> Fault
    ensures { result ≡ fault_of verb unread }
{
    match unread {
        Unread::NoForm => Fault::Usage(verb),
        Unread::NoMemory => Fault::NoMemory,
    }
}

/// A line of one word.
fn alone(line: &str) -> Result<Command, Fault>
    requires { LacksByte 32 line.now }
    ensures { Parses line.now result }
{
    match line.parse()? {
        Verb::Cover => Ok(Command::CoverAll),
        verb => Err(Fault::Usage(verb)),
    }
}

/// A line of a first word, a space and what follows it.
fn several(heap: Global, word: &str, text: &str) -> Result<Command, Fault>
    requires { LacksByte 32 word.now }
    ensures { Parses (word.now ++ (32 ∷ text.now)) result }
{
    let verb = word.parse()?;
    with_arguments(heap, verb, text).map_err(|unread| blamed(verb, unread))
}

/// The command that a line is the written form of.
pub fn parse(heap: Global, line: &str) -> Result<Command, Fault>
    ensures { Parses line.now result }
{
    match line.split_once(' ') {
        Some((word, text)) => several(heap, word, text),
        None => alone(line),
    }
}
