ghost use Rattle.std.specs.Prelude.{◌≡◌};
ghost use Rattle.std.specs.Iterator.{at_most};
ghost use Rattle.runner.specs.Output.{outcome_of};
ghost use Rattle.runner.specs.Slots.{HaveOutcome, NextSlot, most_left, slots_to_come};

use crate::Run;
use fault::RunFault;
use record::Record;

/// The slots of a whole input that is in memory: the record of each, and then why the run is
/// refused, if it is.
#[derive(Drop)]
pub struct Slots<'a> {
    run: Run,
    /// The bytes that the run has not taken.
    rest: &'a [u8],
}

impl<'a> Slots<'a> {
    /// All slots of an input.
    pub fn of(input: &'a [u8]) -> Slots<'a>
        ensures to_come { slots_to_come result ≡ outcome_of input.now }
        ensures whole { HaveOutcome result (outcome_of input.now) }
    {
        Slots {
            run: Run::new(),
            rest: input,
        }
    }
}

impl Iterator for Slots<'_> {
    type Item = Result<Record, RunFault>;

    ghost next_gives = { NextSlot };

    ghost remaining = { λ s. at_most (most_left s) };

    /// The record of the next slot, or why the run is refused; none once the run has stopped.
    fn next(&mut self) -> Option<Result<Record, RunFault>> {
        while let [byte, behind @ ..] = self.rest {
            self.rest = behind;
            match self.run.push(*byte) {
                Ok(None) => {}
                Ok(Some(record)) => return Some(Ok(record)),
                Err(fault) => return Some(Err(fault)),
            }
        }
        match self.run.end() {
            Ok(()) => None,
            Err(fault) => Some(Err(fault)),
        }
    }
}
