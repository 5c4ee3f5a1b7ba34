ghost use Rattle.std.specs.Prelude.{◌≡◌, ◌+◌, ◌<◌};
ghost use Rattle.cell_rules.specs.Rules.{booked, most};
ghost use Rattle.cell_rules.specs.Bookable.{Bookable};
ghost use Rattle.cell.specs.LedgerView.{ledger_rows, outcome_of};

use crate::ledger::Ledger;
use crate::ledger::steps::{count_sent, count_turn};
use record::taking::{Charge, Taking};

impl Ledger {
    /// Books one more slot: whose turn it was, who sent, and what the marked flow was charged.
    pub(crate) fn book(&mut self, marked: Option<u8>, taking: Taking, charge: Charge)
        requires early { self.old.slots < most }
        requires right { Bookable (ledger_rows self.old) (outcome_of marked taking charge) }
        ensures rows { ledger_rows self.new ≡ booked (outcome_of marked taking charge) (ledger_rows self.old) }
        ensures slots { self.new.slots ≡ self.old.slots + 1 }
    {
        if let Some(flow) = marked {
            count_turn(&mut self.rows[usize::from(flow)], charge);
        }
        if let Some(flow) = taking.sender() {
            count_sent(&mut self.rows[usize::from(flow)], taking);
        }
        self.slots += 1;
    }
}
