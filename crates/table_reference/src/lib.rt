//! A table's own reference: round robin or tags, as the table asks.

#![tactic(auto)]

use round_robin::RoundRobin;
use tags::Tags;

mod calls;
mod of;

/// The reference that a table asks for. It is a reference itself, so code that asks it for turns needs no match.
#[derive(Drop)]
pub enum TableReference {
    /// That of kind 1.
    RoundRobin(RoundRobin),
    /// That of kind 2.
    Tags(Tags),
}
