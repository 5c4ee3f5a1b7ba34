//! A table from a stream of bytes, as programs read it.

#![tactic(auto)]

ghost use Rattle.std.specs.Prelude.{◌≡◌, ℕ, List, take, IfOk, IfSome};
ghost use Rattle.table.specs.Refusals.{TableRead};

use std::alloc::Global;
use std::io;
use std::io::Read;
use wire::{LineFault, Table};

#[cfg(test)]
mod tests;

/// What is read of any input that has these bytes in front, of which they are as many as decide.
fn read_front(front: &[u8]) -> Result<Table, LineFault>
    ensures { (bytes : List ℕ) → take 65538 bytes ≡ front.now → TableRead bytes result }
{
    Table::read(front)
}

/// Reads a table from all that is left of an input, or returns its fault. Of a long input it reads
/// no more than decides. If the input fails, or memory runs out, it fails.
pub fn read_table<R: Read + Drop>(alloc: Global, input: R) -> io::Result<Result<Table, LineFault>>
    ensures { IfOk result (λ table. IfSome (R.remaining input) (λ bytes. TableRead bytes table)) }
{
    let mut bytes = Vec::new(alloc);
    input.take(Table::deciding_bytes()).read_to_end(&mut bytes)?;
    Ok(read_front(&bytes))
}
