//! The two byte formats of a cell under one name: the table that sets it up, and the record of each slot.
//! The crates `table` and `record` have the code and the promises; this one has the tests of both.

#![tactic(auto)]

pub use fault::{FrameFault, HeaderFault, Layer, LineFault, RecordFault, Refusal, WriteFault};
pub use record::Record;
pub use record::taking::{Charge, Taking};
pub use table::Table;
pub use table::line::{Kind, Line};

#[cfg(test)]
mod tests;
