use crate::events::Events;
use crate::long_table::LongTable;
use crate::partial_table::{MOST_BYTES, PartialTable};
use arrayvec::ArrayVec;
use fault::CreationFault;
use octets::big_endian::BigEndian;

/// The bytes of a table's length, which does not count them.
const LENGTH_BYTES: usize = 2;

/// How far a run has come.
#[derive(Drop)]
pub(crate) enum Stage {
    /// The table has not come whole.
    Table(PartialTable),
    /// Nor has this one, which is longer than any flow count makes it.
    LongTable(LongTable),
    /// There is a cell, to which events are applied.
    Events(Events),
    /// It has stopped, and ignores the rest of the input.
    Over,
}

ghost use Rattle.std.specs.Prelude.{◌≡◌, ◌+◌, ◌<◌, ◌≤◌, [], IfErr, IfOk, length};
ghost use Rattle.octets.specs.BigEndian.{told_length};
ghost use Rattle.runner.specs.Output.{nothing_more};
ghost use Rattle.runner.specs.ToCome.{StageBehind, stage_to_come};

/// How many bytes the whole table has, by its first two; one that is not there counts as 0.
fn whole_bytes(table: &[u8]) -> usize
    ensures { result ≡ told_length table.now + 2 }
{
    let length = match *table {
        [] => 0,
        [high] => u16::from_bytes([high, 0]),
        [high, low, ..] => u16::from_bytes([high, low]),
    };
    LENGTH_BYTES + usize::from(length)
}

impl Stage {
    /// The stage after these first bytes of the input: at most the whole table, or only the header
    /// of a table that is longer than any flow count makes it.
    pub(crate) fn behind(table: ArrayVec<u8, MOST_BYTES>) -> Result<Stage, CreationFault>
        requires begun { length table.items ≤ told_length table.items + 2 }
        requires short { 68 < told_length table.items → length table.items ≤ 6 }
        ensures behind { StageBehind table.items result }
        ensures whole { IfErr result (λ _. length table.items ≡ told_length table.items + 2) }
        ensures ready { IfOk result (λ stage.
            length table.items ≡ told_length table.items + 2
            → stage_to_come stage [] ≡ nothing_more) }
    {
        let whole = whole_bytes(&table);
        if table.len() == whole {
            return Ok(Stage::Events(Events::of(&table)?));
        }
        if whole > MOST_BYTES
            && let Some(header) = table.first_chunk()
        {
            return Ok(Stage::LongTable(LongTable::after(*header)));
        }
        Ok(Stage::Table(PartialTable { bytes: table }))
    }
}
