ghost use Rattle.std.specs.Prelude.{◌≤◌};

use fault::{CreationFault, LineFault};
use octets::big_endian::BigEndian;
use table::Table;

/// A table that is longer than any flow count makes it. It is refused in any case: once its bytes have come, or if the
/// input ends before they have.
#[derive(Drop)]
pub(crate) struct LongTable {
    /// What is wrong with it, if all of its bytes come.
    fault: LineFault,
    /// How many bytes are still to come.
    left: u16,
    ghost some: { 1 ≤ left },
}

impl LongTable {
    ghost use Rattle.std.specs.Prelude.{◌≡◌, ℕ, ◌<◌, List, ◌∷◌, ◌++◌, ◌≢◌, IfErr, IfOk};
    ghost use Rattle.octets.specs.BigEndian.{told_length};
    ghost use Rattle.runner.specs.Output.{outcome_of};
    ghost use Rattle.runner.specs.TableView.{long_to_come, Passed};

    /// The table that begins with these bytes.
    // What is wrong with it is wrong with a table of no flows, too, that says the same of version, kind and lookahead.
    pub(crate) fn after(header: [u8; 6]) -> LongTable
        requires { 68 < told_length header }
        ensures { (rest : List ℕ) → outcome_of (header ++ rest) ≡ long_to_come result rest }
    {
        let [high, low, version, kind, lookahead, _] = header;
        // The length does not count its own two bytes, and six have come.
        LongTable {
            fault: Table::read(&[0, 4, version, kind, lookahead, 0]).unwrap_err(),
            left: u16::from_bytes([high, low]) - 4,
        }
    }

    /// Ignores a byte, or refuses the table, if that was its last one.
    pub(crate) fn pass(&mut self) -> Result<(), CreationFault>
        ensures passed { (byte : ℕ) (rest : List ℕ) →
            Passed self.old self.new (byte ∷ rest) rest result }
        ensures whole { IfErr result (λ _. self.old.left ≡ 1) }
        ensures more { IfOk result (λ _. self.old.left ≢ 1) }
    {
        if self.left == 1 {
            return Err(self.fault.into());
        }
        self.left -= 1;
        Ok(())
    }
}
