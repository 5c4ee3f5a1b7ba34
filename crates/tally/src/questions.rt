ghost use Rattle.std.specs.Prelude.{◌≡◌, List};
ghost use Rattle.record.specs.declared.Record.{Record};
ghost use Rattle.tally.specs.Counting.{held_of_flow, counts_of, flow_told};
ghost use Rattle.tally.specs.View.{tally_held};

use crate::{FlowTally, Tally};

impl Tally {
    /// The records that were added, each of one slot.
    pub fn slots(&self) -> u64
        ensures { result ≡ self.now.slots }
    {
        self.slots
    }

    /// Those of them in which nobody sends.
    pub fn idle(&self) -> u64
        ensures { result ≡ self.now.idle }
    {
        self.idle
    }

    /// Those of them that were nobody's turn.
    pub fn unmarked(&self) -> u64
        ensures { result ≡ self.now.unmarked }
    {
        self.unmarked
    }

    /// The most flows that any of them is of; 0 before the first.
    pub fn flow_count(&self) -> u8
        ensures { result ≡ self.now.flow_count }
    {
        self.flow_count
    }

    /// The counts of one flow; none from the flow count on.
    pub fn flow(&self, flow: u8) -> Option<FlowTally>
        ensures held { result ≡ held_of_flow (tally_held self.now) flow }
        ensures counted { (records : List Record) → tally_held self.now ≡ counts_of records → result ≡ flow_told records flow }
    {
        if flow < self.flow_count {
            self.flows.get(usize::from(flow)).copied()
        } else {
            None
        }
    }
}
