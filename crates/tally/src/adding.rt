ghost use Rattle.std.specs.Prelude.{◌≡◌, ℕ, ◌<◌, List, [], ◌∷◌, ◌++◌, length, slice_index_or};
ghost use Rattle.record.specs.declared.Record.{Record};
ghost use Rattle.tally.specs.declared.FlowTally.{FlowTally};
ghost use Rattle.record.specs.Accounts.{names, free_sender, forfeited_by};
ghost use Rattle.tally.specs.Counting.{Added, once_more, flow_once_more, counts_of};
ghost use Rattle.tally.specs.View.{tally_held};

use crate::{FlowTally, Tally};
use record::Record;
use record::taking::{Charge, Taking};

/// A count once one more record is added, of which something holds or not.
fn once_more(count: u64, holds: bool) -> u64
    ensures { result ≡ once_more count holds }
{
    count.saturating_add(u64::from(holds))
}

/// Whether a flow is the one that is named.
fn names(named: Option<u8>, flow: usize) -> bool
    ensures { result ≡ names named flow }
{
    named.is_some_and(|named| usize::from(named) == flow)
}

/// The flow that sends on no account.
fn free_sender(taking: Taking) -> Option<u8>
    ensures { result ≡ free_sender taking }
{
    match taking {
        Taking::Free(flow) => Some(flow),
        _ => None,
    }
}

/// The marked flow, if it forfeits.
fn forfeited_by(charge: Charge, marked: Option<u8>) -> Option<u8>
    ensures { result ≡ forfeited_by charge marked }
{
    match charge {
        Charge::Forfeited => marked,
        _ => None,
    }
}

impl FlowTally {
    /// Counts one more record, for the flow that has this number.
    fn add(&mut self, flow: usize, latest: &Record)
        ensures { self.new ≡ flow_once_more self.old flow latest.now }
    {
        let taking = latest.taking();
        let forfeited = forfeited_by(latest.charge(), latest.marked());
        self.marked = once_more(self.marked, names(latest.marked(), flow));
        self.sent = once_more(self.sent, names(taking.sender(), flow));
        self.free = once_more(self.free, names(free_sender(taking), flow));
        self.forfeited = once_more(self.forfeited, names(forfeited, flow));
    }
}

/// Counts one more record, for every flow.
fn add_to_each(flows: &mut [FlowTally], latest: &Record)
    ensures { (k : ℕ) (d : FlowTally) → k < length flows.old
        → slice_index_or flows.new k d ≡ flow_once_more (slice_index_or flows.old k d) k latest.now }
{
    for (flow, tally) in flows.iter_mut().enumerate() {
        tally.add(flow, latest);
    }
}

impl Tally {
    /// The counts of no record.
    pub fn new() -> Tally
        ensures { tally_held result ≡ counts_of [] }
    {
        Tally {
            slots: 0,
            idle: 0,
            unmarked: 0,
            flow_count: 0,
            flows: [FlowTally::default(); 16],
        }
    }

    /// Counts one more record. Whatever records were added before, the counts are then those of all of them and this
    /// one.
    pub fn add(&mut self, latest: &Record)
        ensures exact { Added (tally_held self.old) latest.now (tally_held self.new) }
        ensures of_all { (records : List Record) → tally_held self.old ≡ counts_of records → tally_held self.new ≡ counts_of (records ++ latest.now ∷ []) }
    {
        // On a copy: nothing of a tally can be lent for writing, since its counts go together.
        let mut flows = self.flows;
        add_to_each(&mut flows, latest);
        *self = Tally {
            slots: once_more(self.slots, true),
            idle: once_more(self.idle, latest.taking().sender().is_none()),
            unmarked: once_more(self.unmarked, latest.marked().is_none()),
            flow_count: self.flow_count.max(latest.flow_count()),
            flows,
        };
    }
}

/// The counts of no record.
impl Default for Tally {
    ghost is_default = { λ tally. tally_held tally ≡ counts_of [] };

    fn default() -> Tally {
        Tally::new()
    }
}
