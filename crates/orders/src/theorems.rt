//! Functions that only carry theorems about the definitions.
ghost use Rattle.orders.specs.Theorems.{VisibleBounds, OneSecurity, AdmissibleFacts};

/// The visible sum is at least 1, at most the sum, and the percent of it rounded up.
pub fn visible_bounds_hold()
    ensures { VisibleBounds }
{}

/// A repo order's one security is held by exactly the deposits that have its bit.
pub fn one_security_holds()
    ensures { OneSecurity }
{}

/// Two orders are admissible exactly when codes, securities, return mark and rates allow it.
pub fn admissible_facts_hold()
    ensures { AdmissibleFacts }
{}
