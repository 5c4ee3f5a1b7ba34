ghost use Rattle.table_reference.specs.Examples.{WorkedMarks};
ghost use Rattle.table_reference.specs.View.{Made};

use crate::TableReference;
use round_robin::RoundRobin;
use table::Table;
use tags::Tags;

impl TableReference {
    /// The reference of a table's kind, at its start: every table has one.
    // A named constructor and no From<&Table>: it promises two things by name.
    pub fn of(table: &Table) -> TableReference
        ensures made { Made table.now result }
        ensures worked { WorkedMarks }
    {
        Tags::of(table).map_or_else(
            || TableReference::RoundRobin(RoundRobin::of(table)),
            TableReference::Tags,
        )
    }
}
