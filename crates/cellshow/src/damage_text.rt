use std::fmt;
use wire::RecordFault;

/// What is wrong with bytes that are no record, in a line for people.
#[derive(Clone, Copy)]
pub struct DamageText {
    /// How many records, damaged ones among them, stand before these bytes.
    pub place: u64,
    /// Why they are no record.
    pub fault: RecordFault,
}

impl fmt::Display for DamageText {
    fn fmt<W: fmt::Write>(&self, f: &mut fmt::Formatter<W>) -> fmt::Result {
        let DamageText { place, fault } = *self;
        let number = fault.number();
        write!(f, "record {place}: refused: number {number}: {fault}")
    }
}
