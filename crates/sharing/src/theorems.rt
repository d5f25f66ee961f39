//! Functions that only carry theorems about the definitions.
ghost use Rattle.sharing.specs.Theorems.{Figures, LevelIsGreatest};

/// How each rule divides 24 lots, and parity 45, among sums of 20 and 30.
pub fn figures_hold()
    ensures { Figures }
{}

/// The parity level is the greatest number up to 1,000,000 at which the capped sums come to at most `q`.
pub fn level_is_greatest()
    ensures { LevelIsGreatest }
{}
