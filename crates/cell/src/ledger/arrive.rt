ghost use Rattle.std.specs.Prelude.{◌≡◌, ◌+◌, ◌<◌, ◌≤◌, length};
ghost use Rattle.cell_rules.specs.Rules.{at, enters, more_arrived, most};
ghost use Rattle.cell.specs.LedgerView.{ledger_rows, LedgerArrived};

use crate::ledger::Ledger;
use cell_rules::row::Row;
use fault::ArrivalFault;

/// The most packets that arrive for one flow.
const MOST_PACKETS: u32 = 1_000_000_000;

/// Whether the flow's due rises from 0 when so many packets arrive.
fn enters(row: &Row, packets: u32) -> bool
    ensures { result ≡ enters row.now packets }
{
    row.due() == 0 && packets > 0
}

impl Ledger {
    /// Counts packets that arrive for a flow, which may still have so many.
    fn count_arrived(&mut self, flow: u8, packets: u32)
        requires inside { flow < length (ledger_rows self.old) }
        requires fits { (at (ledger_rows self.old) flow).arrived + packets ≤ most }
        ensures rows { ledger_rows self.new ≡ more_arrived (ledger_rows self.old) flow packets }
        ensures slots { self.new.slots ≡ self.old.slots }
    {
        self.rows[usize::from(flow)].arrived += packets;
    }

    /// Takes packets that arrive for a flow, and tells whether its due rises from 0. A refusal alters nothing.
    pub(crate) fn arrive(&mut self, flow: u8, packets: u32) -> Result<bool, ArrivalFault>
        ensures { LedgerArrived self.old flow packets self.new result }
    {
        let row = self.row(flow).ok_or(ArrivalFault::NoSuchFlow)?;
        if packets > MOST_PACKETS - row.arrived {
            return Err(ArrivalFault::TooMany);
        }
        self.count_arrived(flow, packets);
        Ok(enters(&row, packets))
    }
}
