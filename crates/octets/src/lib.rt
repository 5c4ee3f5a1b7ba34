//! What both byte formats are built of: big-endian numbers, a common range, and places in an output.

#![tactic(auto)]

/// Big-endian numbers.
pub mod big_endian;
/// Places in an output, and writing at one.
pub mod output;
/// The range of flow counts and weights.
pub mod range;
