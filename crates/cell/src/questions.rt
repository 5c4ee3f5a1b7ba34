ghost use Rattle.std.specs.Prelude.{◌≡◌, length};
ghost use Rattle.cell.specs.CellView.{cell_held};
ghost use Rattle.cell.specs.LedgerView.{row_of};

use crate::Cell;
use cell_rules::row::Row;
use reference::Reference;

impl<R: Reference> Cell<R> {
    /// The reference, which tells what share of the slots each flow has.
    pub fn reference(&self) -> &R
        ensures { R.held result.now ≡ (cell_held self.now).held }
    {
        &self.reference
    }

    /// The number of flows, 1 to 16.
    pub fn flow_count(&self) -> u8
        ensures { result ≡ length (cell_held self.now).rows }
    {
        self.ledger.rows().len() as u8
    }

    /// The number of slots that are decided, which is that of the next one.
    pub fn slot(&self) -> u32
        ensures { result ≡ (cell_held self.now).slot }
    {
        self.ledger.slots()
    }

    /// What is counted of a flow; none past the last flow.
    pub fn flow(&self, flow: u8) -> Option<Row>
        ensures { result ≡ row_of (cell_held self.now).rows flow }
    {
        self.ledger.row(flow)
    }
}
