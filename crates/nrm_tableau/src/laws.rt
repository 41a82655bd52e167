//! The law of tableaux, as the contract of a function that does nothing.
#![tactic(auto)]

ghost use Rattle.nrm_tableau.specs.Laws.{OnPathHasFacts};

/// Every tableau has unit columns at its basic columns and constraint rows above 0 in the order of the rule, is made of
/// the first rows and makes them again, and whichever column enters, exactly one row is to leave.
pub fn on_path_has_facts()
    ensures { OnPathHasFacts }
{}
