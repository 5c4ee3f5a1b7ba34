use std::fmt;
use wire::Table;

/// What a table says of a cell as a whole, in lines for people.
#[derive(Clone, Copy)]
pub struct SetupText(pub Table);

impl fmt::Display for SetupText {
    fn fmt<W: fmt::Write>(&self, f: &mut fmt::Formatter<W>) -> fmt::Result {
        let kind = self.0.kind();
        let lookahead = self.0.lookahead();
        let flows = self.0.flow_count();
        let total = self.0.total_weight();
        write!(
            f,
            "kind          {kind}\nlookahead     {lookahead}\nflows         {flows}\ntotal weight  {total}\n"
        )
    }
}
