ghost use Rattle.std.specs.Prelude.{◌≡◌, ℕ, List, [], ◌∷◌, IfErr, IfOk};
ghost use Rattle.runner.specs.EventsView.{Gives};
ghost use Rattle.runner.specs.Output.{nothing_more};
ghost use Rattle.runner.specs.ToCome.{IsDone, MayRefuse, TableEnds, answer_outcome, to_come};

use crate::Run;
use crate::stage::Stage;
use fault::RunFault;
use record::Record;
use std::mem;

impl Run {
    /// Takes a byte as `advance` does, for what is seldom: a byte of the table, or after the run has stopped.
    // Never inlined into `advance`: a function pays at entry for the size of its locals, and a stage is large, while
    // nearly all bytes are those of events, which `advance` takes itself.
    #[cold]
    #[inline(never)]
    fn advance_outside_events(&mut self, byte: u8) -> Result<Option<Record>, RunFault>
        ensures gives { Gives (λ rest. to_come self.old (byte ∷ rest)) (to_come self.new) result }
        ensures in_time { IfErr result (λ _. MayRefuse self.old byte) }
        ensures at_once { IfOk result (λ _.
            TableEnds self.old byte → to_come self.new [] ≡ nothing_more) }
    {
        match &mut self.stage {
            Stage::Table(table) => {
                self.stage = mem::take(table).with(byte)?;
                Ok(None)
            }
            Stage::LongTable(table) => {
                table.pass()?;
                Ok(None)
            }
            Stage::Events(events) => events.push(byte),
            Stage::Over => Ok(None),
        }
    }

    /// Takes a byte as `push` does, but does not stop at a refusal.
    fn advance(&mut self, byte: u8) -> Result<Option<Record>, RunFault>
        ensures gives { Gives (λ rest. to_come self.old (byte ∷ rest)) (to_come self.new) result }
        ensures in_time { IfErr result (λ _. MayRefuse self.old byte) }
        ensures at_once { IfOk result (λ _.
            TableEnds self.old byte → to_come self.new [] ≡ nothing_more) }
    {
        match &mut self.stage {
            Stage::Events(events) => events.push(byte),
            _ => self.advance_outside_events(byte),
        }
    }

    /// Takes the next byte of the input: the record of a slot, if that byte makes a control phase whole, or why the run
    /// stops at it. A run that has stopped ignores the byte.
    pub fn push(&mut self, byte: u8) -> Result<Option<Record>, RunFault>
        ensures gives { (rest : List ℕ) →
            to_come self.old (byte ∷ rest) ≡ answer_outcome result (to_come self.new rest) }
        ensures in_time { IfErr result (λ _. MayRefuse self.old byte) }
        ensures at_once { IfOk result (λ _.
            TableEnds self.old byte → to_come self.new [] ≡ nothing_more) }
        ensures stops { IfErr result (λ _. IsDone self.new) }
    {
        let answer = self.advance(byte);
        if answer.is_err() {
            self.stage = Stage::Over;
        }
        answer
    }
}
