ghost use Rattle.std.specs.Prelude.{◌≡◌};
ghost use Rattle.octets.specs.Output.{Written};
ghost use Rattle.record.specs.Layout.{record_bytes};

use crate::Record;
use crate::layout::{LENGTH, NO_FLOW, VERSION};
use fault::WriteFault;
use octets::big_endian::BigEndian;
use octets::output;

impl Record {
    /// The twelve bytes of the record.
    pub fn bytes(&self) -> [u8; 12]
        ensures { result ≡ record_bytes self.now }
    {
        let [high, low] = LENGTH.to_bytes();
        let (taking, sender): (u8, Option<u8>) = self.taking.into();
        let [a, b, c, d] = self.slot.to_bytes();
        [
            high,
            low,
            VERSION,
            self.marked.unwrap_or(NO_FLOW),
            sender.unwrap_or(NO_FLOW),
            taking,
            self.charge.into(),
            self.flow_count,
            a,
            b,
            c,
            d,
        ]
    }

    /// Writes the record into `out` from `at` on, and tells the next place.
    pub fn write(&self, out: &mut [u8], at: usize) -> Result<usize, WriteFault>
        ensures { Written out.old at (record_bytes self.now) out.new result }
    {
        output::write(&self.bytes(), out, at)
    }
}
