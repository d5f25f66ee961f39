//! A script's run, line by line.
ghost use Rattle.std.specs.Prelude.{◌≡◌, false, IfSome, MatchOption, MatchResult, None};
ghost use Rattle.clearing.specs.Book.{empty};
ghost use Rattle.clearing.specs.Makeup.{plain};
ghost use Rattle.pile.specs.Piles.{pile_makeup};
ghost use Rattle.session.specs.Replies.{outcome, said_if};
ghost use Rattle.session.specs.Obeyed.{Answers, after, NeedsMemory};
ghost use Rattle.script.specs.Parses.{first_word};
ghost use Rattle.script.specs.Verbs.{verb_word};
ghost use Rattle.script.specs.declared.command.Verb.TheVariants.{Share};
ghost use Rattle.session.specs.Lines.{Heard, Spoken, Unread, Answered, passed_over, next_line};

use crate::obeying;
use crate::obstacle::Obstacle;
use pile::{BaseKind, Pile};
use script::{Answer, Command, Reason, parse};
use std::alloc::{AllocError, Global};

/// The longest line that is read, in bytes.
const LONGEST: usize = 4096;

/// The present clearing, and how many lines were read.
// The allocator is no field: `new` takes none, and asking for one would ask more of who opens a session.
#[derive(Drop)]
pub struct Session {
    pile: Pile,
    lines: u64,
}

impl Session {
    /// A limit sheet without caps, every limit 0, and no line read.
    pub fn new() -> Session
        ensures pile { pile_makeup result.pile ≡ plain empty }
        ensures lines { result.lines ≡ 0 }
    {
        Session {
            pile: Pile::new(BaseKind::Sheet, 0).unwrap(),
            lines: 0,
        }
    }

    /// Obeys a command; an `Err` says why the clearing rules it out, or that memory ran out.
    ///
    /// Memory can run out only where shares are asked for.
    // Apart from the pile's own `obey`, which `line` calls while the session counts its lines.
    pub fn obey(&mut self, heap: Global, command: &Command) -> Result<Answer, Obstacle>
        ensures answer { IfSome (outcome result) (Answers (pile_makeup self.old.pile) command.now) }
        ensures inside { pile_makeup self.new.pile ≡ after (pile_makeup self.old.pile) command.now }
        ensures failed { outcome result ≡ None → NeedsMemory command.now }
        ensures lines { self.new.lines ≡ self.old.lines }
    {
        obeying::obey(&mut self.pile, heap, command)
    }

    /// Answers a line of the script, given without its newline; one that is passed over has no answer.
    ///
    /// Where memory runs out, the clearing is as it was before the line.
    pub fn line(&mut self, heap: Global, bytes: &[u8]) -> Result<Option<Answer>, AllocError>
        ensures lines { self.new.lines ≡ next_line self.old.lines }
        ensures answer { MatchResult result (λ a. Answered (pile_makeup self.old.pile) self.new.lines bytes.now (said_if a) (pile_makeup self.new.pile)) (λ _. Unread (pile_makeup self.old.pile) bytes.now (pile_makeup self.new.pile)) }
    {
        self.lines = self.lines.saturating_add(1);
        if is_passed_over(bytes) {
            return Ok(None);
        }
        match spoken(&mut self.pile, heap, bytes) {
            Ok(answer) => Ok(Some(answer)),
            Err(Obstacle::RuledOut(reason)) => Ok(Some(Answer::Bad {
                line: self.lines,
                reason,
            })),
            // The error itself again: no other makes this obstacle.
            Err(Obstacle::NoMemory) => Err(AllocError),
        }
    }
}

/// Whether a line is empty or a comment.
fn is_passed_over(line: &[u8]) -> bool
    ensures { result ≡ passed_over line.now }
{
    matches!(line, [] | [b'#', ..])
}

/// What is said of a line that is not passed over.
fn spoken(pile: &mut Pile, heap: Global, line: &[u8]) -> Result<Answer, Obstacle>
    requires { passed_over line.now ≡ false }
    ensures { MatchOption (outcome result) (Unread (pile_makeup pile.old) line.now (pile_makeup pile.new)) (λ r. Spoken (pile_makeup pile.old) line.now r (pile_makeup pile.new)) }
{
    if line.len() > LONGEST {
        return Err(Reason::TooLong.into());
    }
    let text = std::str::from_utf8(line).map_err(|_| Reason::NotText)?;
    heard(pile, heap, text)
}

/// What is said of a line that is text.
fn heard(pile: &mut Pile, heap: Global, line: &str) -> Result<Answer, Obstacle>
    ensures { MatchOption (outcome result) ((first_word line.now ≡ verb_word Share) × (pile_makeup pile.new ≡ pile_makeup pile.old)) (λ r. Heard (pile_makeup pile.old) line.now r (pile_makeup pile.new)) }
{
    let command = parse(heap, line)?;
    obeying::obey(pile, heap, &command)
}
