ghost use Rattle.std.specs.Prelude.{◌≡◌};
ghost use Rattle.fairness.specs.Past.{step};
ghost use Rattle.fairness.specs.Past.Call.{opening};
ghost use Rattle.fairness.specs.Past.Which.{cell};
ghost use Rattle.cell.specs.CellView.{cell_held, Opened, opening_answer};

use crate::Cell;
use crate::report_set::ReportSet;
use fault::OpeningFault;
use reference::Reference;

/// The most slots that a cell decides.
const MOST_SLOTS: u32 = 1_000_000_000;

impl<R: Reference> Cell<R> {
    /// Opens a control phase: the report set for the next slot, in which nobody has flagged. It is refused once the
    /// cell has decided as many slots as it ever does.
    pub fn open_phase(&self) -> Result<ReportSet, OpeningFault>
        ensures exact { Opened R.meaning (cell_held self.now) result }
        ensures step { step R.meaning cell (cell_held self.now) opening ≡ (cell_held self.now, opening_answer R.meaning result) }
    {
        if self.ledger.slots() >= MOST_SLOTS {
            return Err(OpeningFault::AllDecided);
        }
        Ok(ReportSet::open(self.ledger.slots(), self.flow_count()))
    }
}
