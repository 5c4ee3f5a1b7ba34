ghost use Rattle.std.specs.Prelude.{◌<◌};

use percent::{Tenths, tenths_of_percent};
use std::fmt;
use wire::{Line, Table};
use words::SetupText;

/// What a table sets up, in lines for people.
#[derive(Clone, Copy)]
pub struct TableText(pub Table);

impl TableText {
    /// One flow in a line, each number below its heading, and its share of the total weight.
    fn write_flow<W: fmt::Write>(
        f: &mut fmt::Formatter<W>,
        flow: usize,
        line: &Line,
        total: u16,
    ) -> fmt::Result
        requires { 0 < total }
    {
        let Line {
            weight,
            delay_weight,
            lag_limit,
            lead_limit,
        } = *line;
        let percent = Tenths(tenths_of_percent(u64::from(weight), u64::from(total)).unwrap());
        writeln!(
            f,
            "{flow:>4}  {weight:>6}  {delay_weight:>12}  {lag_limit:>9}  {lead_limit:>10}  {weight:>3}/{total:<3}  {percent:>5} %"
        )
    }
}

impl fmt::Display for TableText {
    fn fmt<W: fmt::Write>(&self, f: &mut fmt::Formatter<W>) -> fmt::Result {
        let setup = SetupText(self.0);
        write!(
            f,
            "{setup}\nflow  weight  delay weight  lag limit  lead limit  share of slots\n"
        )?;
        let total = self.0.total_weight();
        for (flow, line) in self.0.lines().iter().enumerate() {
            TableText::write_flow(f, flow, line, total)?;
        }
        Ok(())
    }
}
