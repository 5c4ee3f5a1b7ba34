//! A cell: it counts the packets that arrive, opens control phases, and decides slots. Each decision is the rules', and
//! the claim of fairness stands on it, over every reference.

#![tactic(auto)]

ghost use Rattle.fairness.specs.PastOf.{HasPast};
ghost use Rattle.cell.specs.StateView.{state_held};

use crate::ledger::Ledger;
use crate::ring::Ring;
use reference::Reference;

mod arrive;
mod chargeable;
mod create;
mod decide;
mod flow_set;
mod flows;
mod leader;
mod ledger;
mod open_phase;
mod questions;
mod refused;
mod report_set;
mod ring;
mod settle;

pub use refused::Refused;
pub use report_set::ReportSet;

/// A cell over a reference. It always has a past: its creation, and the calls since.
// Neither Copy nor Clone: what is counted is counted once.
#[derive(Drop)]
pub struct Cell<R: Reference> {
    reference: R,
    ledger: Ledger,
    ring: Ring,
    ghost has_a_past: { HasPast R.meaning (state_held R.meaning (R.held reference) ledger ring) },
}
