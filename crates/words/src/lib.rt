//! Lines for people that programs print: what a table sets up, what is wrong with it, and what refused a run.

#![tactic(auto)]

mod fault_text;
mod refusal_text;
mod setup_text;

pub use fault_text::FaultText;
pub use refusal_text::RefusalText;
pub use setup_text::SetupText;
