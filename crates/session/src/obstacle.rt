//! Why there is no answer.
ghost use Rattle.std.specs.Prelude.{◌≡◌};
ghost use Rattle.session.specs.Replies.{obstacle_of};
ghost use Rattle.session.specs.declared.obstacle.Obstacle.TheVariants.{RuledOut, NoMemory};

use script::{Fault, Reason};
use std::alloc::AllocError;

/// Why a command or a line has no answer.
#[derive(Clone, Copy, Debug, PartialEq, Eq)]
pub enum Obstacle {
    /// The clearing rules the command out, or the line is none.
    RuledOut(Reason),
    /// Memory ran out.
    NoMemory,
}

impl From<Reason> for Obstacle {
    ghost from_gives = { λ reason obstacle. obstacle ≡ RuledOut reason };

    fn from(reason: Reason) -> Obstacle {
        Obstacle::RuledOut(reason)
    }
}

impl From<Fault> for Obstacle {
    ghost from_gives = { λ fault obstacle. obstacle ≡ obstacle_of fault };

    fn from(fault: Fault) -> Obstacle {
        match fault {
            Fault::Unknown => Obstacle::RuledOut(Reason::Unknown),
            Fault::Usage(verb) => Obstacle::RuledOut(Reason::Usage(verb)),
            Fault::NoMemory => Obstacle::NoMemory,
        }
    }
}

impl From<AllocError> for Obstacle {
    ghost from_gives = { λ _ obstacle. obstacle ≡ NoMemory };

    fn from(_error: AllocError) -> Obstacle {
        Obstacle::NoMemory
    }
}
