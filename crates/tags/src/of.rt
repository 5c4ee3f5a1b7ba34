ghost use Rattle.tags.specs.View.{Made};

use crate::Tags;
use table::Table;
use table::line::Kind;

impl Tags {
    /// The tags of a table that asks for them; none for one that asks for round robin, which has no delay weights.
    // A named constructor and no From<&Table>: it answers Option.
    pub fn of(table: &Table) -> Option<Tags>
        ensures { Made table.now result }
    {
        // A match and no test, so that a further kind has to be decided here.
        match table.kind() {
            Kind::RoundRobin => None,
            Kind::Tags => Some(Tags {
                stamps: table.per_flow(),
                time: 0,
                count: table.flow_count(),
                lookahead: table.lookahead(),
                total: table.total_weight(),
            }),
        }
    }
}
