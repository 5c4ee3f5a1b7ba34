//! A run of a cell: a state that takes the bytes of an input, however they are cut, and gives the
//! records of its slots.

#![tactic(auto)]

ghost use Rattle.std.specs.Prelude.{◌≡◌, ◌↔◌, ℕ, List, IsTrue};
ghost use Rattle.runner.specs.Output.{outcome_of};
ghost use Rattle.runner.specs.ToCome.{IsDone, to_come};

use crate::partial_table::PartialTable;
use crate::stage::Stage;

mod begun;
mod end;
mod event;
mod events;
mod feed;
mod long_table;
mod partial_table;
mod push;
mod slots;
mod stage;
pub mod streams;

pub use slots::Slots;

/// A run. It holds what it needs of the input that it was fed, and so does not grow.
#[derive(Drop)]
pub struct Run {
    stage: Stage,
}

impl Run {
    /// A run before the first byte of its input: the whole outcome is still to come.
    pub fn new() -> Run
        ensures { (input : List ℕ) → to_come result input ≡ outcome_of input }
    {
        Run {
            stage: Stage::Table(PartialTable::default()),
        }
    }

    /// Whether the run has stopped: whether nothing that may still come of the input gives anything.
    pub fn is_over(&self) -> bool
        ensures { IsTrue result ↔ IsDone self.now }
    {
        matches!(self.stage, Stage::Over)
    }
}
