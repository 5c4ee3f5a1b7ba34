//! Reads a table from standard input and says what it sets up, or exactly what is wrong with it.

#![tactic(auto)]

use crate::tell::tell;
use std::io;

mod table_text;
mod tell;
#[cfg(test)]
mod tests;

fn main(rt: HostRuntime) -> io::Result<()> {
    tell(rt.alloc(), rt.stdin(), &rt.stdout())
}
