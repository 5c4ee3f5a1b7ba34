//! Runs a cell on standard input, and writes what the run writes to standard output.

#![tactic(auto)]

use runner::streams::run;
use std::io;
use std::io::BufWriter;

#[cfg(test)]
mod fakes;
#[cfg(test)]
mod runs;
#[cfg(test)]
mod stream_tests;
#[cfg(test)]
mod tests;

fn main(rt: HostRuntime) -> io::Result<()> {
    run(
        &mut rt.stdin(),
        &mut BufWriter::new(rt.alloc(), rt.stdout())?,
    )
}
