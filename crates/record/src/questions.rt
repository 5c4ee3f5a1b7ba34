ghost use Rattle.std.specs.Prelude.{◌≡◌};

use crate::Record;
use crate::taking::{Charge, Taking};

impl Record {
    /// The flow whose turn it was; none where nobody was due.
    pub fn marked(&self) -> Option<u8>
        ensures { result ≡ self.now.marked }
    {
        self.marked
    }

    /// Who sent, and on what account.
    pub fn taking(&self) -> Taking
        ensures { result ≡ self.now.taking }
    {
        self.taking
    }

    /// What the marked flow was charged.
    pub fn charge(&self) -> Charge
        ensures { result ≡ self.now.charge }
    {
        self.charge
    }

    /// The number of flows of the cell, 1 to 16.
    pub fn flow_count(&self) -> u8
        ensures { result ≡ self.now.flow_count }
    {
        self.flow_count
    }

    /// The number of the slot, below 1,000,000,000.
    pub fn slot(&self) -> u32
        ensures { result ≡ self.now.slot }
    {
        self.slot
    }
}
