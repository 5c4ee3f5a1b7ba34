//! The worked cases, all together: marks of both references, and slots of cells, computed from the rules. And the claim
//! at the references that tables ask for.

#![tactic(auto)]

ghost use Rattle.fairness.specs.Fairness.{FairInEveryPast};
ghost use Rattle.table_reference.specs.View.{own};
ghost use Rattle.worked_cases.specs.Cases.{WorkedCases};

use fairness::fair_in_every_past;
use table::Table;
use table_reference::TableReference;

#[cfg(test)]
mod tests;

/// The rules give what was worked out by hand.
pub fn worked_cases()
    ensures { WorkedCases }
{}

/// A cell over the reference that a table asks for is fair in every past.
pub fn fair_over_own_reference(table: &Table)
    ensures { FairInEveryPast own }
{
    fair_in_every_past(&TableReference::of(table));
}
