//! The rules of a cell: definitions of what happens in a slot and at every other call, what follows of one slot, and
//! the row of plain numbers that is kept of each flow.

#![tactic(auto)]

/// What is counted of one flow.
pub mod row;
