use crate::rounds_text::RoundsText;
use input::read_table;
use rounds::two_rounds;
use std::alloc::Global;
use std::io;
use std::io::{Print, Read};
use table_reference::TableReference;
use words::FaultText;

/// Tells whom the turns of two rounds mark on the reference of an input's table, or what is wrong with the table.
// Over any input and output, so that tests read what is told of a table that is refused, too.
// `Print` and no `Write`: standard output then gathers 1,024 bytes before it writes, where `write!`
// on it writes each piece of a text by a call of its own.
pub fn tell<R: Read + Drop, P: Print>(alloc: Global, input: R, output: &P) -> io::Result<()> {
    match read_table(alloc, input)? {
        Ok(table) => {
            let mut reference = TableReference::of(&table);
            let marks = two_rounds(alloc, &mut reference)?;
            output.print(RoundsText {
                table,
                reference: &reference,
                marks: &marks,
            })
        }
        Err(fault) => output.println(FaultText(fault)),
    }
}
