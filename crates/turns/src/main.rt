//! Reads a table from standard input, has every flow due throughout, takes the turns of two rounds on the table's own
//! reference, and says which flows they marked and what each flow's share was.

#![tactic(auto)]

use crate::tell::tell;
use std::io;

mod rounds_text;
mod tell;
#[cfg(test)]
mod tests;

fn main(rt: HostRuntime) -> io::Result<()> {
    tell(rt.alloc(), rt.stdin(), &rt.stdout())
}
