ghost use Rattle.std.specs.Prelude.{◌≡◌, map};
ghost use Rattle.cell_rules.specs.Rules.{fresh};
ghost use Rattle.table.specs.Layout.{flow_lines};
ghost use Rattle.cell.specs.LedgerView.{ledger_rows};

use crate::ledger::Ledger;
use table::Table;

impl Ledger {
    /// The ledger of the flows of a table, of which nothing has been counted.
    pub(crate) fn of(table: &Table) -> Ledger
        ensures rows { ledger_rows result ≡ map fresh (flow_lines table.now) }
        ensures slots { result.slots ≡ 0 }
    {
        Ledger {
            rows: table.per_flow(),
            count: table.flow_count(),
            slots: 0,
        }
    }
}
