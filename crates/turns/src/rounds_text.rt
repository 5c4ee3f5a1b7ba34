ghost use Rattle.std.specs.Prelude.{◌<◌};
ghost use Rattle.table_reference.specs.View.{own, own_held};

use reference::Reference;
use rounds::{count_marks, fewest_marks};
use std::fmt;
use table_reference::TableReference;
use wire::Table;
use words::SetupText;

/// What the turns of two rounds marked, in lines for people.
#[derive(Clone, Copy)]
pub struct RoundsText<'a> {
    /// The table that was read.
    pub table: Table,
    /// Its own reference, after these turns.
    pub reference: &'a TableReference,
    /// What each turn marked.
    pub marks: &'a [Option<u8>],
}

/// The marks of some turns, in their order.
fn write_marks<W: fmt::Write>(f: &mut fmt::Formatter<W>, marks: &[Option<u8>]) -> fmt::Result {
    for mark in marks {
        // A match and no method of an Option: the two arms print in different ways.
        match *mark {
            Some(flow) => write!(f, " {flow:>2}")?,
            None => f.write_str("  -")?,
        }
    }
    f.write_str("\n")
}

impl RoundsText<'_> {
    /// One flow in a line: its marks against its share of two rounds, which is twice its weight, and the fewest marks
    /// that its allowance leaves it.
    fn write_flow<W: fmt::Write>(&self, f: &mut fmt::Formatter<W>, flow: u8) -> fmt::Result
        requires { flow < own.flows (own_held self.now.reference.now) }
    {
        let weight = self.reference.weight(flow).unwrap();
        let allowance = self.reference.allowance(flow).unwrap();
        let share = 2 * u64::from(weight);
        let marked = count_marks(self.marks, flow);
        // A slice may be of any length; it never comes to that many: two rounds of a table are at most 512 turns.
        let turns = u32::try_from(self.marks.len()).unwrap_or(u32::MAX);
        let total = self.reference.total_weight();
        // 0 where there is nothing to tell; it never comes to that: by the laws a total weight is at least 1.
        let fewest = fewest_marks(turns, weight, total, allowance).unwrap_or(0);
        writeln!(
            f,
            "{flow:>4}  {weight:>6}  {marked:>5}  {share:>5}  {allowance:>9}  {fewest:>6}"
        )
    }
}

impl fmt::Display for RoundsText<'_> {
    fn fmt<W: fmt::Write>(&self, f: &mut fmt::Formatter<W>) -> fmt::Result {
        let setup = SetupText(self.table);
        let turns = self.marks.len();
        write!(f, "{setup}turns         {turns}\n\nround 1 ")?;
        let (first, second) = self.marks.split_at(turns / 2);
        write_marks(f, first)?;
        f.write_str("round 2 ")?;
        write_marks(f, second)?;
        f.write_str("\nflow  weight  marks  share  allowance  fewest\n")?;
        for flow in 0..self.reference.flow_count() {
            self.write_flow(f, flow)?;
        }
        Ok(())
    }
}
