//! Counts over the records of a run: how many slots there were, and how often each flow was marked, sent and forfeited.

#![tactic(auto)]

ghost use Rattle.tally.specs.Counting.{CountRecords};

mod adding;
mod questions;

/// What was counted of one flow.
#[derive(Clone, Copy, PartialEq, Eq, Debug, Default)]
pub struct FlowTally {
    /// Slots that were its turn.
    pub marked: u64,
    /// Packets that it sent.
    pub sent: u64,
    /// Those of them that it sent on no account.
    pub free: u64,
    /// Turns that it lost.
    pub forfeited: u64,
}

/// Counts over records, which are added one by one: always those of some records. A count that comes to the greatest
/// `u64` stays there.
#[derive(Clone, Copy, PartialEq, Eq, Debug)]
pub struct Tally {
    slots: u64,
    idle: u64,
    unmarked: u64,
    // The most of any record so far; nothing is counted of the flows from there on.
    flow_count: u8,
    flows: [FlowTally; 16],
    ghost of_records: { CountRecords (record { slots = slots; idle = idle; unmarked = unmarked; flow_count = flow_count; flows = flows }) },
}
