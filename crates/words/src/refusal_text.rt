use std::fmt;

/// What refused a run, by the number that its output ends with, in words for people.
#[derive(Clone, Copy)]
pub struct RefusalText(pub u8);

impl RefusalText {
    /// What a number stands for. A run tells 1 to 8 and 16; its other operations refuse nothing.
    fn words(self) -> &'static str {
        match self.0 {
            1 => "a table of fewer than six bytes, or of another length than it tells",
            2 => "a table of another version than 1",
            3 => "a table of an unknown kind, or with a lookahead that its kind does not have",
            4 => "a table whose flow count is not 1 to 16, or does not go with its length",
            5 => "a table with a weight or a delay weight out of its range",
            6 => "packets for a flow that the cell does not have",
            7 => "more than 1,000,000,000 packets for one flow",
            8 => "a control phase after 1,000,000,000 slots",
            16 => "an unknown event, or one cut short",
            _ => "no refusal of a run",
        }
    }
}

impl fmt::Display for RefusalText {
    fn fmt<W: fmt::Write>(&self, f: &mut fmt::Formatter<W>) -> fmt::Result {
        let number = self.0;
        let words = self.words();
        write!(f, "number {number}: {words}")
    }
}
