//! Reads from standard input what a run of a cell wrote, and tells it in lines for people: each slot as its record
//! comes, how the run ended if it was refused, and at the end what each flow came to.

#![tactic(auto)]

use crate::show::show;
use std::io;

mod damage_text;
mod show;
mod slot_text;
mod tally_text;
#[cfg(test)]
mod tests;

fn main(rt: HostRuntime) -> io::Result<()> {
    show(rt.alloc(), rt.stdin(), rt.stdout())
}
