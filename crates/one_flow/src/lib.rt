//! The smallest reference: one flow, which a turn marks whenever it is due. It is for whoever writes another reference
//! to read first, and for code that is generic over references to be tried on.

#![tactic(auto)]

mod calls;
#[cfg(test)]
mod tests;

/// A reference over one flow.
#[derive(Clone, Copy, Default)]
pub struct OneFlow {
    due: bool,
}
