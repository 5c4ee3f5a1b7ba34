ghost use Rattle.std.specs.Prelude.{◌≡◌};
ghost use Rattle.octets.specs.Output.{Written};
ghost use Rattle.table.specs.Layout.{table_bytes};

use crate::Table;
use crate::layout::{MOST_BYTES, VERSION};
use arrayvec::ArrayVec;
use fault::WriteFault;
use octets::big_endian::BigEndian;
use octets::output;

impl Table {
    /// The bytes of the table.
    fn bytes(&self) -> ArrayVec<u8, MOST_BYTES>
        ensures { result.items ≡ table_bytes self.now }
    {
        // The length counts the four bytes after it, and four for each line.
        let [high, low] = (4 + 4 * u16::from(self.flow_count)).to_bytes();
        let header = [
            high,
            low,
            VERSION,
            u8::from(self.kind),
            self.lookahead,
            self.flow_count,
        ];
        let mut bytes = ArrayVec::new();
        bytes.try_extend_from_slice(&header).unwrap();
        for line in self.lines() {
            bytes
                .try_extend_from_slice(&<[u8; 4]>::from(*line))
                .unwrap();
        }
        bytes
    }

    /// Writes the table into `out` from `at` on, and tells the next place.
    pub fn write(&self, out: &mut [u8], at: usize) -> Result<usize, WriteFault>
        ensures { Written out.old at (table_bytes self.now) out.new result }
    {
        output::write(&self.bytes(), out, at)
    }
}
