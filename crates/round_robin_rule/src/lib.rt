//! The rule of round robin and what it means: definitions, the proofs of the laws, and the value that the code holds of
//! each flow, its quota.

#![tactic(auto)]

/// What a round robin holds of one flow.
pub mod quota;
