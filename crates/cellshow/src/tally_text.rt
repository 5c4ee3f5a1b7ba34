use percent::{Tenths, tenths_of_percent};
use std::fmt;
use tally::{FlowTally, Tally};

/// What all the slots came to, in lines for people.
#[derive(Clone, Copy)]
pub struct TallyText<'a> {
    /// The counts over the records that were read.
    pub tally: &'a Tally,
    /// How many were damaged.
    pub damaged: u64,
}

/// One flow in a line, each number below its heading, and the share of the slots in which it sent.
fn write_flow<W: fmt::Write>(
    f: &mut fmt::Formatter<W>,
    flow: u8,
    counts: &FlowTally,
    slots: u64,
) -> fmt::Result {
    let FlowTally {
        marked,
        sent,
        free,
        forfeited,
    } = *counts;
    // 0 of no slot; it never comes to that: a flow is told only where a record names its number of flows.
    let percent = Tenths(tenths_of_percent(sent, slots).unwrap_or(0));
    writeln!(
        f,
        "{flow:>4}  {marked:>10}  {sent:>10}  {free:>10}  {forfeited:>10}  {percent:>12} %"
    )
}

/// The flows, each in a line, below the headings; nothing where there is no flow.
fn write_flows<W: fmt::Write>(f: &mut fmt::Formatter<W>, tally: &Tally) -> fmt::Result {
    if tally.flow_count() > 0 {
        f.write_str("\nflow      marked        sent        free   forfeited  share of slots\n")?;
    }
    for flow in 0..tally.flow_count() {
        if let Some(counts) = tally.flow(flow) {
            write_flow(f, flow, &counts, tally.slots())?;
        }
    }
    Ok(())
}

impl fmt::Display for TallyText<'_> {
    fn fmt<W: fmt::Write>(&self, f: &mut fmt::Formatter<W>) -> fmt::Result {
        let slots = self.tally.slots();
        let idle = self.tally.idle();
        let unmarked = self.tally.unmarked();
        writeln!(
            f,
            "slots  {slots}, of these idle {idle}, nobody's turn {unmarked}"
        )?;
        let damaged = self.damaged;
        if damaged > 0 {
            writeln!(f, "damaged  {damaged}")?;
        }
        write_flows(f, self.tally)
    }
}
