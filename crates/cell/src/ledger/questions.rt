ghost use Rattle.std.specs.Prelude.{◌≡◌, ◌≤◌, length, nat_lt};
ghost use Rattle.cell_rules.specs.Rules.{at, due};
ghost use Rattle.cell_rules.specs.Facts.{KeptRows};
ghost use Rattle.cell.specs.FlowsView.{rows_of};
ghost use Rattle.cell.specs.LedgerView.{ledger_rows, row_of};

use crate::flow_set::FlowSet;
use crate::flows::Flows;
use crate::ledger::Ledger;
use cell_rules::row::Row;

impl Ledger {
    /// What is counted of each flow, flow 0 first: 1 to 16 rows.
    pub(crate) fn rows(&self) -> &[Row]
        ensures exact { result.now ≡ ledger_rows self.now }
        ensures some { 1 ≤ length result.now }
        ensures few { length result.now ≤ 16 }
        ensures kept { KeptRows self.now.slots result.now }
    {
        &self.rows[..usize::from(self.count)]
    }

    /// What is counted of a flow; none past the last flow.
    pub(crate) fn row(&self, flow: u8) -> Option<Row>
        ensures { result ≡ row_of (ledger_rows self.now) flow }
    {
        self.rows().get(usize::from(flow)).copied()
    }

    /// Whether the flow is still to have turns for what arrived.
    pub(crate) fn is_due(&self, flow: u8) -> bool
        ensures { result ≡ nat_lt 0 (due (at (ledger_rows self.now) flow)) }
    {
        self.row(flow).is_some_and(|row| row.due() > 0)
    }

    /// The flows before a slot in which these are clean.
    pub(crate) fn flows(&self, clean: FlowSet) -> Flows<'_>
        ensures rows { rows_of result ≡ ledger_rows self.now }
        ensures clean { result.clean ≡ clean }
    {
        Flows {
            rows: self.rows(),
            clean,
        }
    }

    /// The number of slots that are booked.
    pub(crate) fn slots(&self) -> u32
        ensures { result ≡ self.now.slots }
    {
        self.slots
    }
}
