use std::fmt;
use wire::LineFault;

/// A refused table, in a line for people: its refusal, and what is wrong.
#[derive(Clone, Copy)]
pub struct FaultText(pub LineFault);

impl fmt::Display for FaultText {
    fn fmt<W: fmt::Write>(&self, f: &mut fmt::Formatter<W>) -> fmt::Result {
        let fault = self.0;
        let refusal = fault.refusal();
        write!(f, "refused: {refusal}: {fault}")
    }
}
