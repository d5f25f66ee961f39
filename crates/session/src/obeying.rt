//! Each command, obeyed by a pile.
ghost use Rattle.std.specs.Prelude.{◌≡◌, IfSome, None, Ok};
ghost use Rattle.pile.specs.Parts.{told_by};
ghost use Rattle.pile.specs.Piles.{pile_makeup};
ghost use Rattle.script.specs.declared.command.Command.TheVariants.{Clearing, Limit, Pots, Cap, CoverAll, Cover, Left, Reserve, Release};
ghost use Rattle.session.specs.Replies.{said, outcome, reply_of, set_said};
ghost use Rattle.session.specs.Obeyed.{Answers, after, NeedsMemory};

use crate::asked_shares::shared;
use crate::obstacle::Obstacle;
use crate::order_need::need;
use crate::totals::totals;
use clearing::Clearing;
use pile::{BaseKind, Pile, SetError};
use script::{Answer, Command, Reason};
use std::alloc::Global;

/// A new clearing of a base and caps, every figure 0.
fn clearing(pile: &mut Pile, base: BaseKind, caps: u32) -> Result<Answer, Reason>
    ensures answer { Answers (pile_makeup pile.old) (Clearing base caps) (said result) }
    ensures inside { pile_makeup pile.new ≡ after (pile_makeup pile.old) (Clearing base caps) }
{
    let new = Pile::new(base, caps).ok_or(Reason::TooManyCaps)?;
    *pile = new;
    Ok(Answer::ClearingReady)
}

/// A setter's answer; `missing` tells that the clearing has no such figure.
fn set_answer(answer: Result<(), SetError>, missing: Reason) -> Result<Answer, Reason>
    ensures { said result ≡ set_said (told_by answer) missing }
{
    match answer {
        Ok(()) => Ok(Answer::Set),
        Err(SetError::Refused(refusal)) => Ok(Answer::Refused(refusal)),
        Err(SetError::NoSuchPart) => Err(missing),
    }
}

/// A participant's limit.
fn limit(pile: &mut Pile, participant: u32, limit: u32) -> Result<Answer, Reason>
    ensures answer { Answers (pile_makeup pile.old) (Limit participant limit) (said result) }
    ensures inside { pile_makeup pile.new ≡ after (pile_makeup pile.old) (Limit participant limit) }
{
    set_answer(pile.set_limit(participant, limit), Reason::NoLimits)
}

/// A participant's two pots.
fn pots(pile: &mut Pile, participant: u32, money: u32, securities: u32) -> Result<Answer, Reason>
    ensures answer { Answers (pile_makeup pile.old) (Pots participant money securities) (said result) }
    ensures inside { pile_makeup pile.new ≡ after (pile_makeup pile.old) (Pots participant money securities) }
{
    set_answer(
        pile.set_pots(participant, money, securities),
        Reason::NoPots,
    )
}

/// A participant's cap in a layer.
fn cap(pile: &mut Pile, layer: u32, participant: u32, cap: u32) -> Result<Answer, Reason>
    ensures answer { Answers (pile_makeup pile.old) (Cap layer participant «cap») (said result) }
    ensures inside { pile_makeup pile.new ≡ after (pile_makeup pile.old) (Cap layer participant «cap») }
{
    set_answer(pile.set_cap(layer, participant, cap), Reason::NoLayer)
}

/// A participant's free and held lots.
fn cover(pile: &Pile, participant: u32) -> Answer
    ensures { Answers (pile_makeup pile.now) (Cover participant) (Ok (reply_of result)) }
{
    Answer::Cover {
        participant,
        free: pile.free(participant),
        held: pile.held(participant),
    }
}

/// The free and held lots of all participants.
fn cover_all(pile: &Pile) -> Answer
    ensures { Answers (pile_makeup pile.now) CoverAll (Ok (reply_of result)) }
{
    let (free, held) = totals(pile);
    Answer::CoverAll { free, held }
}

/// What a participant's two pots have left.
fn left(pile: &Pile, participant: u32) -> Result<Answer, Reason>
    ensures { Answers (pile_makeup pile.now) (Left participant) (said result) }
{
    let (money, securities) = pile.left(participant).ok_or(Reason::NoPots)?;
    Ok(Answer::Left {
        participant,
        money,
        securities,
    })
}

/// Lots from free to held.
fn reserve(pile: &mut Pile, participant: u32, lots: u32) -> Answer
    ensures answer { Answers (pile_makeup pile.old) (Reserve participant lots) (Ok (reply_of result)) }
    ensures inside { pile_makeup pile.new ≡ after (pile_makeup pile.old) (Reserve participant lots) }
{
    Answer::Verdict(pile.reserve(participant, lots))
}

/// Lots from held to free.
fn release(pile: &mut Pile, participant: u32, lots: u32) -> Answer
    ensures answer { Answers (pile_makeup pile.old) (Release participant lots) (Ok (reply_of result)) }
    ensures inside { pile_makeup pile.new ≡ after (pile_makeup pile.old) (Release participant lots) }
{
    Answer::Verdict(pile.release(participant, lots))
}

/// Obeys a command; an `Err` says why there is no answer.
pub fn obey(pile: &mut Pile, heap: Global, command: &Command) -> Result<Answer, Obstacle>
    ensures answer { IfSome (outcome result) (Answers (pile_makeup pile.old) command.now) }
    ensures inside { pile_makeup pile.new ≡ after (pile_makeup pile.old) command.now }
    ensures failed { outcome result ≡ None → NeedsMemory command.now }
{
    Ok(match command {
        Command::Clearing { base, caps } => clearing(pile, *base, *caps)?,
        Command::Limit {
            participant,
            limit: figure,
        } => limit(pile, *participant, *figure)?,
        Command::Pots {
            participant,
            money,
            securities,
        } => pots(pile, *participant, *money, *securities)?,
        Command::Cap {
            layer,
            participant,
            cap: figure,
        } => cap(pile, *layer, *participant, *figure)?,
        Command::CoverAll => cover_all(pile),
        Command::Cover { participant } => cover(pile, *participant),
        Command::Need {
            participant,
            sum,
            percent,
        } => need(pile, *participant, *sum, *percent)?,
        Command::Left { participant } => left(pile, *participant)?,
        Command::Reserve { participant, lots } => reserve(pile, *participant, *lots),
        Command::Release { participant, lots } => release(pile, *participant, *lots),
        Command::Share {
            rule,
            lots,
            length,
            sums,
        } => shared(heap, *rule, sums.as_slice(), *lots, *length)?,
    })
}
