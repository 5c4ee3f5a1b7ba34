ghost use Rattle.std.specs.Prelude.{◌≡◌, ◌≤◌};
ghost use Rattle.cell_rules.specs.Rules.{giving_after};
ghost use Rattle.cell.specs.LedgerView.{TurnFits, SendFits, turned_row, sent_row};

use cell_rules::row::Row;
use record::taking::{Charge, Taking};

/// What a flow's giving is after its turn.
fn giving_after(row: &Row) -> u8
    requires { row.now.lead ≤ row.now.lead_limit }
    ensures { result ≡ giving_after row.now }
{
    if !row.leads() {
        row.giving
    } else if row.is_designated() {
        row.giving - (row.lead_limit - row.lead)
    } else {
        row.giving + row.lead
    }
}

/// Counts a turn of the marked flow, and what it is charged.
pub(crate) fn count_turn(row: &mut Row, charge: Charge)
    requires { TurnFits charge row.old }
    ensures { row.new ≡ turned_row charge row.old }
{
    row.giving = giving_after(row);
    row.marked += 1;
    match charge {
        Charge::Nothing => {}
        Charge::LeadDown => row.lead -= 1,
        Charge::LagUp => row.lag += 1,
        Charge::Forfeited => row.forfeited += 1,
    }
}

/// Counts one more packet of the sender, on the account of this taking.
pub(crate) fn count_sent(row: &mut Row, taking: Taking)
    requires { SendFits taking row.old }
    ensures { row.new ≡ sent_row taking row.old }
{
    row.sent += 1;
    match taking {
        Taking::Idle | Taking::Own(_) => {}
        Taking::LagRepaid(_) => row.lag -= 1,
        Taking::LeadCharged(_) => row.lead += 1,
        Taking::Free(_) => row.free += 1,
    }
}
