//! The commands of a script.
ghost use Rattle.std.specs.Prelude.{◌≡◌};
ghost use Rattle.script.specs.Answers.{usage_text};

use pile::BaseKind;
use sharing::Rule;

/// What a line of a script asks for.
#[derive(Drop)]
pub enum Command {
    /// A new clearing: its base, and how many cap layers lie on it.
    Clearing {
        base: BaseKind,
        caps: u32,
    },
    Limit {
        participant: u32,
        limit: u32,
    },
    Pots {
        participant: u32,
        money: u32,
        securities: u32,
    },
    /// Layer 1 is the cap next to the base.
    Cap {
        layer: u32,
        participant: u32,
        cap: u32,
    },
    CoverAll,
    Cover {
        participant: u32,
    },
    Need {
        participant: u32,
        sum: u32,
        percent: u32,
    },
    Left {
        participant: u32,
    },
    Reserve {
        participant: u32,
        lots: u32,
    },
    Release {
        participant: u32,
        lots: u32,
    },
    Share {
        rule: Rule,
        lots: u32,
        length: u32,
        sums: Vec<u32>,
    },
}

/// The first word of a command that has others.
#[derive(Clone, Copy, Debug, PartialEq, Eq)]
pub enum Verb {
    Clearing,
    Limit,
    Pots,
    Cap,
    Cover,
    Need,
    Left,
    Reserve,
    Release,
    Share,
}

impl Verb {
    /// The form of the commands that begin so.
    pub(crate) fn usage(self) -> &'static str
        ensures { result.now ≡ usage_text self }
    {
        match self {
            Verb::Clearing => "usage: clearing BASE CAPS",
            Verb::Limit => "usage: limit P X",
            Verb::Pots => "usage: pots P MONEY SECURITIES",
            Verb::Cap => "usage: cap LAYER P X",
            Verb::Cover => "usage: cover [P]",
            Verb::Need => "usage: need P SUM PERCENT",
            Verb::Left => "usage: left P",
            Verb::Reserve => "usage: reserve P S",
            Verb::Release => "usage: release P S",
            Verb::Share => "usage: share RULE Q LENGTH V1 V2 ..",
        }
    }
}
