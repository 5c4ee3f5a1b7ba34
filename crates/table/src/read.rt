ghost use Rattle.std.specs.Prelude.{◌≡◌, ℕ, ◌≤◌, List, length, take, Ok, Result};
ghost use Rattle.std.specs.List.{flat_map};
ghost use Rattle.octets.specs.BigEndian.{Bytes};
ghost use Rattle.table.specs.Lines.{line_bytes};
ghost use Rattle.table.specs.Layout.{table_bytes};
ghost use Rattle.table.specs.Layers.{LinesChecked};
ghost use Rattle.table.specs.Refusals.{FlowCountTold, TableRead};

use crate::Table;
use crate::header::Header;
use crate::layout::HEADER_BYTES;
use crate::line::{Kind, Line};
use crate::sixteen::sixteen_of;
use fault::{HeaderFault, LineFault};

/// Checks the lines of all flows.
fn check_lines(kind: Kind, lines: &[Line]) -> Result<(), LineFault>
    requires { length lines.now ≤ 16 }
    ensures { LinesChecked kind (flat_map line_bytes lines.now) result }
{
    for (flow, line) in (0..16).zip(lines) {
        line.check(kind, flow)?;
    }
    Ok(())
}

/// The table that has these bytes, made once all of them are checked.
fn checked(bytes: &[u8]) -> Result<Table, LineFault>
    ensures { TableRead bytes.now result }
{
    let Header {
        kind,
        lookahead,
        flow_count,
    } = Header::read(bytes)?;
    let (rows, _) = bytes[HEADER_BYTES..].as_chunks();
    let lines = sixteen_of(rows);
    check_lines(kind, &lines[..usize::from(flow_count)])?;
    Ok(Table {
        kind,
        lookahead,
        flow_count,
        lines,
    })
}

impl Table {
    /// Reads a table. What is not the bytes of a table is refused, by the first of its faults.
    pub fn read(bytes: &[u8]) -> Result<Table, LineFault>
        ensures exact { TableRead bytes.now result }
        ensures undoes_writing { (t : Table) → table_bytes t ≡ bytes.now → result ≡ Ok t }
    {
        checked(bytes)
    }

    /// The flow count that the bytes of a table tell, if they are right up to their header. Their lines are not looked
    /// at.
    pub fn told_flow_count(bytes: &[u8]) -> Result<u8, HeaderFault>
        ensures { FlowCountTold bytes.now result }
    {
        Ok(Header::read(bytes)?.flow_count)
    }

    /// How many bytes of an input decide what is read of it. A longer input is longer than any length can tell.
    pub fn deciding_bytes() -> u64
        ensures number { result ≡ 65538 }
        ensures decide { (b : List ℕ) (x : Result Table LineFault) → Bytes (take result b) → TableRead (take result b) x → TableRead b x }
    {
        65_538
    }
}
