use crate::rounds_text::RoundsText;
use crate::tell::tell;
use std::cell::RefCell;
use std::fmt::Display;
use std::io;
use std::io::{ErrorKind, Print, Write};
use std::test::Fail;
use table_reference::TableReference;
use wire::Table;

/// Tables, and what is said of two rounds of their turns.
const RUNS: [(&[u8], &str); 3] = [
    (
        &[0, 12, 1, 2, 1, 2, 2, 2, 0, 0, 1, 1, 0, 0],
        "kind          tags\nlookahead     1\nflows         2\ntotal weight  3\nturns         6\n\nround 1   0  0  1\nround 2   0  0  1\n\nflow  weight  marks  share  allowance  fewest\n   0       2      4      4          7       2\n   1       1      2      2          7       0\n",
    ),
    (
        &[0, 12, 1, 1, 0, 2, 2, 0, 0, 0, 1, 0, 0, 0],
        "kind          round robin\nlookahead     0\nflows         2\ntotal weight  3\nturns         6\n\nround 1   0  1  0\nround 2   1  0  0\n\nflow  weight  marks  share  allowance  fewest\n   0       2      4      4          4       3\n   1       1      2      2          4       1\n",
    ),
    (
        &[0, 8, 1, 2, 16, 1, 1, 16, 0, 0],
        "kind          tags\nlookahead     16\nflows         1\ntotal weight  1\nturns         2\n\nround 1   0\nround 2   0\n\nflow  weight  marks  share  allowance  fewest\n   0       1      2      2          0       2\n",
    ),
];

/// An output that keeps what is printed, and takes nothing that is written past that.
#[derive(Drop)]
struct Printed(RefCell<Vec<u8>>);

impl Print for Printed {
    fn print<D: Display + Drop>(&self, value: D) -> io::Result<()> {
        write!(self.0.try_borrow_mut()?, "{value}")
    }

    fn println<D: Display + Drop>(&self, value: D) -> io::Result<()> {
        writeln!(self.0.try_borrow_mut()?, "{value}")
    }

    // A text that is written here would go out piece by piece.
    fn write_all(&self, _bytes: &[u8]) -> io::Result<()> {
        Err(io::Error::from(ErrorKind::Unsupported))
    }
}

#[test]
fn two_rounds_of_tables(rt: HostRuntime) -> Result<(), Fail> {
    for (bytes, words) in RUNS.iter() {
        let output = Printed(RefCell::new(Vec::new(rt.alloc())));
        tell(rt.alloc(), *bytes, &output)?;
        assert_eq!(rt; String::from_utf8(output.0.into_inner())?.as_str(), *words);
    }
    Ok(())
}

#[test]
fn a_refused_table_is_told_in_a_line(rt: HostRuntime) -> Result<(), Fail> {
    let input: [u8; 10] = [0, 8, 1, 1, 0, 1, 1, 1, 0, 0];
    let output = Printed(RefCell::new(Vec::new(rt.alloc())));
    tell(rt.alloc(), input.as_slice(), &output)?;
    assert_eq!(rt;
        output.0.into_inner().as_slice(),
        b"refused: number 5, byte 7, line: the delay weight of flow 0 is not 1 to 16 (tags) or not 0 (round robin)\n".as_slice()
    );
    Ok(())
}

/// A turn that marks nobody, as the turns of a reference do over which no flow is due.
#[test]
fn turns_that_mark_nobody(rt: HostRuntime) -> Result<(), Fail> {
    let table = Table::read(&[0, 8, 1, 1, 0, 1, 1, 0, 0, 0])?;
    let text = RoundsText {
        table,
        reference: &TableReference::of(&table),
        marks: &[None, Some(0)],
    }
    .to_string(rt.alloc())?;
    assert!(rt; text.contains("\nround 1   -\nround 2   0\n"));
    Ok(())
}
