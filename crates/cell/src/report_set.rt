//! What the flows of a cell report before a slot.

ghost use Rattle.std.specs.Prelude.{◌≡◌, ℕ, ◌<◌, ◌≤◌, false};
ghost use Rattle.cell_rules.specs.Rules.{has, most};

use crate::flow_set::FlowSet;
use fault::FlagFault;

/// A report set: who flagged for a slot, and who of them clean. A flow without a flag counts as dirty.
// Neither Copy nor Clone, so that a set that was given away for a decision cannot be used again.
#[derive(PartialEq, Eq, Debug, Drop)]
pub struct ReportSet {
    slot: u32,
    flow_count: u8,
    flagged: FlowSet,
    clean: FlowSet,
    ghost early: { slot < most },
    ghost some: { 1 ≤ flow_count },
    ghost few: { flow_count ≤ 16 },
    ghost of_the_cell: { (f : ℕ) → flow_count ≤ f → has flagged.bits f ≡ false },
    ghost dirty_without: { (f : ℕ) → has flagged.bits f ≡ false → has clean.bits f ≡ false },
}

impl ReportSet {
    ghost use Rattle.std.specs.Prelude.{IfOk};
    ghost use Rattle.cell_rules.specs.Rules.{flags_clean, opened};
    ghost use Rattle.cell.specs.ReportSetView.{Flagged, OneMore, RestFlagged, reports_held};

    /// The set for a slot of a cell with so many flows, before any of them flags.
    pub(crate) fn open(slot: u32, flow_count: u8) -> ReportSet
        requires early { slot < most }
        requires some { 1 ≤ flow_count }
        requires few { flow_count ≤ 16 }
        ensures { reports_held result ≡ opened slot flow_count }
    {
        ReportSet {
            slot,
            flow_count,
            flagged: FlowSet::default(),
            clean: FlowSet::default(),
        }
    }

    /// The slot that the set is for.
    pub fn slot(&self) -> u32
        ensures { result ≡ (reports_held self.now).slot }
    {
        self.slot
    }

    /// The number of flows that the set is for, 1 to 16.
    pub fn flow_count(&self) -> u8
        ensures { result ≡ (reports_held self.now).flow_count }
    {
        self.flow_count
    }

    /// Whether a flow has flagged, clean or dirty.
    pub fn has_flagged(&self, flow: u8) -> bool
        ensures { result ≡ has (reports_held self.now).flagged flow }
    {
        self.flagged.contains(flow)
    }

    /// Whether a flow is clean: whether it has flagged so.
    pub fn is_clean(&self, flow: u8) -> bool
        ensures { result ≡ flags_clean (reports_held self.now) flow }
    {
        self.clean.contains(flow)
    }

    /// The flows that are clean.
    #[tactic(auto, using(crate::proofs::Flags::clean_bits_are_the_flags))]
    pub(crate) fn clean(&self) -> FlowSet
        ensures { has result.bits ≡ flags_clean (reports_held self.now) }
    {
        self.clean
    }

    /// Flags a flow, clean or dirty. A number that is no flow's, and a second flag of one flow, are refused, and the
    /// set is then as it was.
    #[tactic(auto, using(crate::proofs::FlowSets::has_with_same, crate::proofs::FlowSets::has_with_other))]
    pub fn flag(&mut self, flow: u8, clean: bool) -> Result<(), FlagFault>
        ensures exact { Flagged (reports_held self.old) flow clean (reports_held self.new) result }
        ensures one_more { IfOk result (λ _. OneMore (reports_held self.old) flow clean (reports_held self.new)) }
    {
        if flow >= self.flow_count {
            return Err(FlagFault::NoSuchFlow);
        }
        if self.has_flagged(flow) {
            return Err(FlagFault::FlaggedAlready);
        }
        self.flagged = self.flagged.with(flow);
        if clean {
            self.clean = self.clean.with(flow);
        }
        Ok(())
    }

    /// Has every flow flag that has not yet: clean if its bit is set, and else dirty. The bit of flow 0 is the lowest;
    /// the bits past the last flow are passed over.
    pub fn flag_rest(&mut self, clean: u16)
        ensures { RestFlagged (reports_held self.old) clean (reports_held self.new) }
    {
        let all = FlowSet::first(self.flow_count).bits;
        let rest = all & !self.flagged.bits;
        self.clean.bits |= clean & rest;
        self.flagged.bits = all;
    }
}
