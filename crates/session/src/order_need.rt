//! The cover that an order would need.
ghost use Rattle.std.specs.Prelude.{◌≡◌};
ghost use Rattle.pile.specs.Piles.{pile_makeup};
ghost use Rattle.script.specs.declared.command.Command.TheVariants.{Need};
ghost use Rattle.session.specs.Replies.{said};
ghost use Rattle.session.specs.Obeyed.{Answers, after, is_order};

use clearing::Clearing;
use orders::visible_sum;
use pile::Pile;
use script::{Answer, Reason};

/// Whether an order may have this sum and this percent.
fn is_order(sum: u32, percent: u32) -> bool
    ensures { result ≡ is_order sum percent }
{
    (1..=1_000_000).contains(&sum) && percent <= 100
}

/// What an order would show and hide; its whole sum is reserved, once.
pub fn need(pile: &mut Pile, participant: u32, sum: u32, percent: u32) -> Result<Answer, Reason>
    ensures answer { Answers (pile_makeup pile.old) (Need participant sum percent) (said result) }
    ensures inside { pile_makeup pile.new ≡ after (pile_makeup pile.old) (Need participant sum percent) }
{
    if !is_order(sum, percent) {
        return Err(Reason::NoOrder);
    }
    let visible = visible_sum(sum, percent);
    let hidden = sum - visible;
    let covered = pile.reserve(participant, sum);
    Ok(Answer::Need {
        participant,
        visible,
        hidden,
        covered,
    })
}
