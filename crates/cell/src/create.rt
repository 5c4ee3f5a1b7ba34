ghost use Rattle.std.specs.Prelude.{◌≡◌};
ghost use Rattle.cell_rules.specs.Rules.{all_leave};
ghost use Rattle.cell.specs.CellView.{Created};
ghost use Rattle.cell.specs.Creation.{TableFor};

use crate::Cell;
use crate::ledger::Ledger;
use crate::refused::Refused;
use crate::ring::Ring;
use fault::{CreationFault, LineFault};
use reference::Reference;
use table::Table;

/// Has every flow leave a reference, from flow 0 up.
fn all_leave<R: Reference>(reference: &mut R)
    ensures { R.held reference.new ≡ all_leave R.meaning (R.held reference.old) (R.meaning.flows (R.held reference.old)) }
{
    for flow in 0..reference.flow_count() {
        reference.leave(flow);
    }
}

/// Reads the table of a cell over a reference of so many flows. A flow count that is not the reference's is told before
/// a line that is wrong, as any other flow count is.
fn table_for(bytes: &[u8], flow_count: u8) -> Result<Table, CreationFault>
    ensures { TableFor bytes.now flow_count result }
{
    let told = Table::told_flow_count(bytes).map_err(LineFault::from)?;
    if told != flow_count {
        return Err(CreationFault::FlowCount);
    }
    Ok(Table::read(bytes)?)
}

impl<R: Reference> Cell<R> {
    /// Creates a cell of a table's bytes over a reference, which every flow leaves. A refusal gives the reference back
    /// as it was.
    pub fn create(bytes: &[u8], mut reference: R) -> Result<Cell<R>, Refused<CreationFault, R>>
        ensures { Created bytes.now reference result }
    {
        match table_for(bytes, reference.flow_count()) {
            Ok(table) => {
                all_leave(&mut reference);
                Ok(Cell {
                    reference,
                    ledger: Ledger::of(&table),
                    ring: Ring::new(table.flow_count()),
                })
            }
            Err(fault) => Err(Refused {
                fault,
                given: reference,
            }),
        }
    }
}
