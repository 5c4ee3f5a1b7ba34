ghost use Rattle.std.specs.Prelude.{◌≡◌, ◌<◌, ◌==◌, ◌&&◌, length, IfErr, IfOk, IfSome};
ghost use Rattle.cell_rules.specs.Rules.{decided, flags_clean, outcome};
ghost use Rattle.fairness.specs.Fairness.{IdleExactlyWhenNobodyCanSend};
ghost use Rattle.fairness.specs.Past.Call.{decision};
ghost use Rattle.fairness.specs.PastOf.{FairFromEveryPast};
ghost use Rattle.cell.specs.CellView.{cell_held, said_by, Decided, decision_answer, decision_told};
ghost use Rattle.cell.specs.LedgerView.{ledger_rows};
ghost use Rattle.cell.specs.ReportSetView.{reports_held};
ghost use Rattle.cell.specs.StateView.{left_if_done, state_held};

use crate::Cell;
use crate::ledger::Ledger;
use crate::refused::Refused;
use crate::report_set::ReportSet;
use crate::ring::Ring;
use fault::DecisionFault;
use record::Record;
use reference::Reference;

/// Has the marked flow leave if nothing is due for it any more.
fn release<R: Reference>(reference: &mut R, ledger: &Ledger, marked: Option<u8>)
    ensures { R.held reference.new ≡ left_if_done R.meaning (R.held reference.old) (ledger_rows ledger.now) marked }
{
    if let Some(flow) = marked
        && !ledger.is_due(flow)
    {
        reference.leave(flow);
    }
}

/// Decides a slot on a report set that is for it: asks for a turn, settles the slot by it, and books it.
#[inline(always)]
fn decide_on<R: Reference>(
    reference: &mut R,
    ledger: &mut Ledger,
    ring: &mut Ring,
    reports: &ReportSet,
) -> Record
    requires marks { IfSome (R.meaning.marks (R.held reference.old)) (λ flow. flow < length (ledger_rows ledger.old)) }
    requires slot { (reports_held reports.now).slot ≡ ledger.old.slots }
    requires flow_count { (reports_held reports.now).flow_count ≡ length (ledger_rows ledger.old) }
    ensures said { said_by result ≡ outcome R.meaning (state_held R.meaning (R.held reference.old) ledger.old ring.old) (flags_clean (reports_held reports.now)) }
    ensures slot { result.slot ≡ ledger.old.slots }
    ensures flow_count { result.flow_count ≡ length (ledger_rows ledger.old) }
    ensures state { state_held R.meaning (R.held reference.new) ledger.new ring.new ≡ decided R.meaning (state_held R.meaning (R.held reference.old) ledger.old ring.old) (flags_clean (reports_held reports.now)) }
{
    let marked = reference.turn();
    let (taking, charge) = ledger.flows(reports.clean()).settle(ring, marked);
    ledger.book(marked, taking, charge);
    release(reference, ledger, marked);
    // What is settled keeps the rules of a record, which is shown and so not tested here.
    Record {
        marked,
        taking,
        charge,
        flow_count: reports.flow_count(),
        slot: reports.slot(),
    }
}

impl<R: Reference> Cell<R> {
    /// Whether a report set is for the next slot, and for as many flows as there are.
    fn awaits(&self, reports: &ReportSet) -> bool
        ensures { result ≡ ((reports_held reports.now).slot == (cell_held self.now).slot && (reports_held reports.now).flow_count == length (cell_held self.now).rows) }
    {
        reports.slot() == self.slot() && reports.flow_count() == self.flow_count()
    }

    /// Decides the next slot on a report set, which is used up, by the rules on the flags of that set: the slot is idle
    /// exactly when no waiting flow is clean. A set that is not for this slot, or not for so many flows, is refused: it
    /// is handed back, and the cell is as it was.
    ///
    /// Whichever past led here, with this call it leads to the cell as it is then, and the claim of fairness holds of
    /// it.
    #[inline(always)]
    pub fn decide(
        &mut self,
        reports: ReportSet,
    ) -> Result<Record, Refused<DecisionFault, ReportSet>>
        ensures exact { Decided R.meaning (cell_held self.old) reports (cell_held self.new) result }
        ensures unaltered { IfErr result (λ _. self.new ≡ self.old) }
        ensures idle { IfOk result (λ r. IdleExactlyWhenNobodyCanSend R.meaning (decision_told R.meaning (cell_held self.old) reports (cell_held self.new) r)) }
        ensures fair { FairFromEveryPast R.meaning (cell_held self.old) (decision (reports_held reports)) (cell_held self.new) (decision_answer R.meaning (cell_held self.old) reports (cell_held self.new) result) }
    {
        if !self.awaits(&reports) {
            return Err(Refused {
                fault: DecisionFault::NotForThisSlot,
                given: reports,
            });
        }
        Ok(decide_on(
            &mut self.reference,
            &mut self.ledger,
            &mut self.ring,
            &reports,
        ))
    }
}
