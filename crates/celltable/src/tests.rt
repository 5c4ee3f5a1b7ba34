use crate::table_text::TableText;
use crate::tell::tell;
use std::cell::RefCell;
use std::fmt::Display;
use std::io;
use std::io::{ErrorKind, Print, Write};
use std::test::Fail;
use wire::{FrameFault, HeaderFault, LineFault, Table};
use words::FaultText;

/// Every fault and its line.
const FAULTS: [(LineFault, &str); 7] = [
    (
        LineFault::Header(HeaderFault::Frame(FrameFault::Length)),
        "refused: number 1, byte 0, frame: there are fewer than six bytes, or not as many as the length tells",
    ),
    (
        LineFault::Header(HeaderFault::Frame(FrameFault::Version)),
        "refused: number 2, byte 2, frame: the version is not 1",
    ),
    (
        LineFault::Header(HeaderFault::Kind),
        "refused: number 3, byte 3, header: the kind is neither 1 (round robin) nor 2 (tags)",
    ),
    (
        LineFault::Header(HeaderFault::Lookahead),
        "refused: number 3, byte 4, header: the lookahead is not 0 to 16 (tags) or not 0 (round robin)",
    ),
    (
        LineFault::Header(HeaderFault::FlowCount),
        "refused: number 4, byte 5, header: the flow count is not 1 to 16, or the length is not that of so many lines",
    ),
    (
        LineFault::Weight(3),
        "refused: number 5, byte 18, line: the weight of flow 3 is not 1 to 16",
    ),
    (
        LineFault::DelayWeight(2),
        "refused: number 5, byte 15, line: the delay weight of flow 2 is not 1 to 16 (tags) or not 0 (round robin)",
    ),
];

#[test]
fn every_fault_in_words(rt: HostRuntime) -> Result<(), Fail> {
    for (fault, words) in FAULTS.iter() {
        let text = FaultText(*fault).to_string(rt.alloc())?;
        assert_eq!(rt; text.as_str(), *words);
    }
    Ok(())
}

#[test]
fn a_round_robin_table(rt: HostRuntime) -> Result<(), Fail> {
    let table = Table::read(&[0, 12, 1, 1, 0, 2, 2, 0, 5, 255, 1, 0, 0, 0])?;
    let text = TableText(table).to_string(rt.alloc())?;
    assert_eq!(rt;
        text.as_str(),
        "kind          round robin\nlookahead     0\nflows         2\ntotal weight  3\n\nflow  weight  delay weight  lag limit  lead limit  share of slots\n   0       2             0          5         255    2/3     66.7 %\n   1       1             0          0           0    1/3     33.3 %\n"
    );
    Ok(())
}

/// An output that keeps what is printed, and takes nothing that is written past that.
#[derive(Drop)]
struct Printed(RefCell<Vec<u8>>);

impl Print for Printed {
    fn print<D: Display + Drop>(&self, value: D) -> io::Result<()> {
        write!(self.0.try_borrow_mut()?, "{value}")
    }

    fn println<D: Display + Drop>(&self, value: D) -> io::Result<()> {
        writeln!(self.0.try_borrow_mut()?, "{value}")
    }

    // A text that is written here would go out piece by piece.
    fn write_all(&self, _bytes: &[u8]) -> io::Result<()> {
        Err(io::Error::from(ErrorKind::Unsupported))
    }
}

#[test]
fn a_refused_table_is_told_in_a_line(rt: HostRuntime) -> Result<(), Fail> {
    let input: [u8; 10] = [0, 8, 1, 1, 0, 1, 17, 0, 0, 0];
    let output = Printed(RefCell::new(Vec::new(rt.alloc())));
    tell(rt.alloc(), input.as_slice(), &output)?;
    assert_eq!(rt;
        output.0.into_inner().as_slice(),
        b"refused: number 5, byte 6, line: the weight of flow 0 is not 1 to 16\n".as_slice()
    );
    Ok(())
}
