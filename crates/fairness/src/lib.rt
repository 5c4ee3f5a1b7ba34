//! What a cell owes its flows in every past, over every reference: the claim, and that the rules keep it.

#![tactic(auto)]

ghost use Rattle.fairness.specs.Fairness.{FairInEveryPast};

use reference::Reference;

/// A cell over this reference, or any other one with its meaning, is fair in every past.
pub fn fair_in_every_past<R: Reference>(_reference: &R)
    ensures { FairInEveryPast R.Reference.meaning }
{}
