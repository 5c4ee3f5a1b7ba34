ghost use Rattle.std.specs.Prelude.{◌≡◌, [], IfErr};
ghost use Rattle.runner.specs.ToCome.{IsCut, IsDone, end_outcome, to_come};

use crate::Run;
use crate::stage::Stage;
use fault::{CreationFault, EventFault, FrameFault, HeaderFault, LineFault, RunFault};

impl Run {
    /// Ends the input here: refuses a run that is within its table or an event. The run has stopped
    /// then.
    pub fn end(&mut self) -> Result<(), RunFault>
        ensures exact { to_come self.old [] ≡ end_outcome result }
        ensures cut { IfErr result IsCut }
        ensures stops { IsDone self.new }
    {
        let end = match &self.stage {
            Stage::Table(_) | Stage::LongTable(_) => {
                let fault = LineFault::Header(HeaderFault::Frame(FrameFault::Length));
                Err(RunFault::Creation(CreationFault::Table(fault)))
            }
            Stage::Events(events) if events.between() => Ok(()),
            Stage::Events(_) => Err(RunFault::Event(EventFault::CutShort)),
            Stage::Over => Ok(()),
        };
        self.stage = Stage::Over;
        end
    }
}
