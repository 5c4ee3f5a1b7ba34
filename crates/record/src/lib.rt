//! The record of a slot: a type that keeps the rules of the format, its bytes and its faults.

#![tactic(auto)]

ghost use Rattle.std.specs.Prelude.{◌≡◌, ◌<◌, ◌≤◌, true};
ghost use Rattle.record.specs.Pairs.{flows_fit, pair_fits};

use crate::taking::{Charge, Taking};

mod layout;
mod making;
mod questions;
mod read;
/// Who sends in a slot, and what the marked flow is charged.
pub mod taking;
mod write;

/// The record of one slot, which keeps every rule of its format: whoever makes or alters one shows that it does, or has
/// `new` test it.
// The fields are public so that a decision makes a record by proof; the questions tell the same to whoever only reads.
#[derive(Clone, Copy, PartialEq, Eq, Debug)]
pub struct Record {
    /// The flow whose turn it was; none where nobody was due.
    pub marked: Option<u8>,
    /// Who sent, and on what account.
    pub taking: Taking,
    /// What the marked flow was charged.
    pub charge: Charge,
    /// The number of flows of the cell, 1 to 16.
    pub flow_count: u8,
    /// The number of the slot, below 1,000,000,000.
    pub slot: u32,
    ghost some: { 1 ≤ flow_count },
    ghost few: { flow_count ≤ 16 },
    ghost early: { slot < 1000000000 },
    ghost flows: { flows_fit flow_count marked taking ≡ true },
    ghost pair: { pair_fits marked taking charge ≡ true },
}
