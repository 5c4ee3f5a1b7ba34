//! The rule of tags and what it means: definitions, the proofs of the laws, and the values that the code holds, which
//! are a flow's stamp and its entry.

#![tactic(auto)]

/// A flow that may be marked, with its finish tag, and the order in which such flows are marked.
pub mod entry;
/// What tags hold of one flow.
pub mod stamp;
