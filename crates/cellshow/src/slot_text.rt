use std::fmt;
use wire::{Charge, Record, Taking};

/// What a record says of its slot, in a line for people.
#[derive(Clone, Copy)]
pub struct SlotText(pub Record);

/// Whose turn it was.
fn write_turn<W: fmt::Write>(f: &mut fmt::Formatter<W>, marked: Option<u8>) -> fmt::Result {
    match marked {
        Some(flow) => write!(f, "flow {flow}'s turn"),
        None => f.write_str("nobody's turn"),
    }
}

/// Who sent, and on what account.
fn write_taking<W: fmt::Write>(f: &mut fmt::Formatter<W>, taking: Taking) -> fmt::Result {
    match taking {
        Taking::Idle => f.write_str("nobody sends"),
        Taking::Own(flow) => write!(f, "flow {flow} sends"),
        Taking::LagRepaid(flow) => write!(f, "flow {flow} sends, lag repaid"),
        Taking::LeadCharged(flow) => write!(f, "flow {flow} sends, lead charged"),
        Taking::Free(flow) => write!(f, "flow {flow} sends, free"),
    }
}

/// What the marked flow is charged.
fn write_charge<W: fmt::Write>(
    f: &mut fmt::Formatter<W>,
    marked: u8,
    charge: Charge,
) -> fmt::Result {
    match charge {
        Charge::Nothing => Ok(()),
        Charge::LeadDown => write!(f, "; flow {marked}'s lead falls"),
        Charge::LagUp => write!(f, "; flow {marked}'s lag rises"),
        Charge::Forfeited => write!(f, "; flow {marked} forfeits"),
    }
}

impl fmt::Display for SlotText {
    fn fmt<W: fmt::Write>(&self, f: &mut fmt::Formatter<W>) -> fmt::Result {
        let slot = self.0.slot();
        write!(f, "slot {slot}: ")?;
        write_turn(f, self.0.marked())?;
        f.write_str(", ")?;
        write_taking(f, self.0.taking())?;
        // A slot that was nobody's turn has no charge.
        match self.0.marked() {
            Some(flow) => write_charge(f, flow, self.0.charge()),
            None => Ok(()),
        }
    }
}
