//! Theorems about the definitions of a day.
ghost use Rattle.model.specs.Figures.{Figures};
ghost use Rattle.model.specs.Law.{EveryList};
ghost use Rattle.model.specs.Refills.{RefillsInTurn};

/// All worked figures hold.
pub fn figures_hold()
    ensures { Figures }
{
    sharing::figures_hold()
}

/// The law of every list of calls.
pub fn every_list_obeys()
    ensures { EveryList }
{}

/// Several orders that show lots again in one round do so in list order, behind all others.
pub fn refills_in_turn()
    ensures { RefillsInTurn }
{}
