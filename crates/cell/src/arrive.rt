ghost use Rattle.std.specs.Prelude.{◌≡◌, IfErr};
ghost use Rattle.fairness.specs.Past.{step};
ghost use Rattle.fairness.specs.Past.Call.{arrival};
ghost use Rattle.fairness.specs.Past.Which.{cell};
ghost use Rattle.cell.specs.CellView.{cell_held, Arrived, arrival_answer};

use crate::Cell;
use fault::ArrivalFault;
use reference::Reference;

impl<R: Reference> Cell<R> {
    /// Counts packets that arrive for a flow. A number that is no flow's, and more packets than can arrive for one, are
    /// refused, and the cell is then as it was.
    #[inline(always)]
    pub fn arrive(&mut self, flow: u8, packets: u32) -> Result<(), ArrivalFault>
        ensures exact { Arrived R.meaning (cell_held self.old) flow packets (cell_held self.new) result }
        ensures unaltered { IfErr result (λ _. self.new ≡ self.old) }
        ensures step { step R.meaning cell (cell_held self.old) (arrival flow packets) ≡ (cell_held self.new, arrival_answer R.meaning result) }
    {
        let enters = self.ledger.arrive(flow, packets)?;
        if enters {
            self.reference.enter(flow);
        }
        Ok(())
    }
}
