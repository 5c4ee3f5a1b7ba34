use crate::table_text::TableText;
use input::read_table;
use std::alloc::Global;
use std::io;
use std::io::{Print, Read};
use words::FaultText;

/// Tells what the table of an input sets up, or what is wrong with it.
// Over any input and output, so that tests read what is told of a table that is refused, too.
// `Print` and no `Write`: standard output then gathers 1,024 bytes before it writes, where `write!`
// on it writes each piece of a text by a call of its own.
pub fn tell<R: Read + Drop, P: Print>(alloc: Global, input: R, output: &P) -> io::Result<()> {
    match read_table(alloc, input)? {
        Ok(table) => output.print(TableText(table)),
        Err(fault) => output.println(FaultText(fault)),
    }
}
