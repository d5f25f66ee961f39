//! A rule that is chosen at run time.
ghost use Rattle.sharing.specs.Chosen.{chosen_shares};
ghost use Rattle.sharing.specs.declared.chosen.Rule.TheVariants.{Time, ProRata, Parity};
ghost use Rattle.sharing.specs.InTurn.{time_divides};
ghost use Rattle.sharing.specs.Proportion.{pro_rata_divides};
ghost use Rattle.sharing.specs.Levels.{parity_divides};

use crate::parity_level::Parity;
use crate::pro_rata::ProRata;
use crate::sharing_rule::SharingRule;
use crate::time_priority::Time;

/// One of the three rules, chosen at run time.
#[derive(Clone, Copy, Debug, PartialEq, Eq)]
pub enum Rule {
    Time,
    ProRata,
    Parity,
}

impl SharingRule for Rule {
    ghost shares = { chosen_shares };

    ghost divides = { elim [
      | Time ↦ λ sums q lawful. time_divides sums q lawful.covered
      | ProRata ↦ λ sums q lawful. pro_rata_divides sums q lawful.least lawful.covered
      | Parity ↦ λ sums q lawful. parity_divides sums q lawful.each lawful.covered
    ] };

    fn share(&self, sums: &[u32], q: u32, out: &mut [u32]) -> bool {
        match self {
            Rule::Time => Time.share(sums, q, out),
            Rule::ProRata => ProRata.share(sums, q, out),
            Rule::Parity => Parity.share(sums, q, out),
        }
    }
}
