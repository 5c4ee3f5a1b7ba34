ghost use Rattle.std.specs.Prelude.{◌≡◌};
ghost use Rattle.table.specs.Layout.{flow_lines};
ghost use Rattle.round_robin_rule.specs.Rule.{MarksInTurn, start};
ghost use Rattle.round_robin.specs.View.{robin_held};

use crate::RoundRobin;
use table::Table;

impl RoundRobin {
    /// A round robin over the flows of a table, with their weights: no flow is due, none has used anything, and the
    /// first turn looks at flow 0 first.
    // A named constructor and no From<&Table>: it promises two things by name.
    pub fn of(table: &Table) -> RoundRobin
        ensures starts { robin_held result ≡ start (flow_lines table.now) }
        ensures in_turn { MarksInTurn }
    {
        RoundRobin {
            quotas: table.per_flow(),
            count: table.flow_count(),
            pointer: 0,
            total: table.total_weight(),
        }
    }
}
