use crate::show::show;
use crate::slot_text::SlotText;
use std::alloc::Global;
use std::io;
use std::io::{ErrorKind, Read, Write};
use std::test::Fail;
use wire::Record;
use words::RefusalText;

/// All that is shown of an input.
fn shown<R: Read + Drop>(alloc: Global, input: R) -> Result<String, Fail> {
    let mut out = Vec::new(alloc);
    show(alloc, input, &mut out)?;
    Ok(String::from_utf8(out)?)
}

/// Every taking and every charge, in a record each, and its line.
const SLOTS: [([u8; 12], &str); 8] = [
    (
        [0, 10, 1, 0, 1, 3, 2, 2, 0, 0, 0, 0],
        "slot 0: flow 0's turn, flow 1 sends, lead charged; flow 0's lag rises",
    ),
    (
        [0, 10, 1, 15, 15, 1, 0, 16, 59, 154, 201, 255],
        "slot 999999999: flow 15's turn, flow 15 sends",
    ),
    (
        [0, 10, 1, 1, 0, 2, 1, 2, 0, 0, 0, 3],
        "slot 3: flow 1's turn, flow 0 sends, lag repaid; flow 1's lead falls",
    ),
    (
        [0, 10, 1, 0, 255, 0, 3, 2, 0, 0, 0, 4],
        "slot 4: flow 0's turn, nobody sends; flow 0 forfeits",
    ),
    (
        [0, 10, 1, 0, 1, 4, 3, 2, 0, 0, 0, 5],
        "slot 5: flow 0's turn, flow 1 sends, free; flow 0 forfeits",
    ),
    (
        [0, 10, 1, 255, 0, 4, 0, 2, 0, 0, 0, 6],
        "slot 6: nobody's turn, flow 0 sends, free",
    ),
    (
        [0, 10, 1, 255, 255, 0, 0, 2, 0, 0, 0, 7],
        "slot 7: nobody's turn, nobody sends",
    ),
    (
        [0, 10, 1, 255, 1, 2, 0, 2, 0, 0, 0, 8],
        "slot 8: nobody's turn, flow 1 sends, lag repaid",
    ),
];

#[test]
fn every_taking_and_charge_in_words(rt: HostRuntime) -> Result<(), Fail> {
    for (bytes, words) in SLOTS.iter() {
        let text = SlotText(Record::read(bytes)?).to_string(rt.alloc())?;
        assert_eq!(rt; text.as_str(), *words);
    }
    Ok(())
}

/// The numbers that a run tells, and one that it does not, in words.
const REFUSALS: [(u8, &str); 10] = [
    (
        1,
        "number 1: a table of fewer than six bytes, or of another length than it tells",
    ),
    (2, "number 2: a table of another version than 1"),
    (
        3,
        "number 3: a table of an unknown kind, or with a lookahead that its kind does not have",
    ),
    (
        4,
        "number 4: a table whose flow count is not 1 to 16, or does not go with its length",
    ),
    (
        5,
        "number 5: a table with a weight or a delay weight out of its range",
    ),
    (
        6,
        "number 6: packets for a flow that the cell does not have",
    ),
    (7, "number 7: more than 1,000,000,000 packets for one flow"),
    (8, "number 8: a control phase after 1,000,000,000 slots"),
    (16, "number 16: an unknown event, or one cut short"),
    (200, "number 200: no refusal of a run"),
];

#[test]
fn every_refusal_in_words(rt: HostRuntime) -> Result<(), Fail> {
    for (number, words) in REFUSALS.iter() {
        let text = RefusalText(*number).to_string(rt.alloc())?;
        assert_eq!(rt; text.as_str(), *words);
    }
    Ok(())
}

/// Inputs, and all that is shown of them.
const INPUTS: [(&[u8], &str); 7] = [
    (&[], "slots  0, of these idle 0, nobody's turn 0\n"),
    (
        &[0, 2, 1, 8],
        "the run was refused: number 8: a control phase after 1,000,000,000 slots\n\nslots  0, of these idle 0, nobody's turn 0\n",
    ),
    // A damaged record between two, and a refusal.
    (
        &[
            0, 10, 1, 0, 0, 1, 0, 1, 0, 0, 0, 0, 0, 10, 1, 0, 0, 5, 0, 1, 0, 0, 0, 1, 0, 10, 1, 0,
            0, 1, 0, 1, 0, 0, 0, 2, 0, 2, 1, 16,
        ],
        "slot 0: flow 0's turn, flow 0 sends\nrecord 1: refused: number 15: a field is out of its range, or fields do not go together\nslot 2: flow 0's turn, flow 0 sends\nthe run was refused: number 16: an unknown event, or one cut short\n\nslots  2, of these idle 0, nobody's turn 0\ndamaged  1\n\nflow      marked        sent        free   forfeited  share of slots\n   0           2           2           0           0         100.0 %\n",
    ),
    // A record, and one cut short.
    (
        &[
            0, 10, 1, 255, 1, 2, 0, 3, 0, 0, 0, 8, 0, 10, 1, 255, 1, 2, 0, 2, 0, 0, 0,
        ],
        "slot 8: nobody's turn, flow 1 sends, lag repaid\nrecord 1: refused: number 13: there are not twelve bytes, or the length is not 10\n\nslots  1, of these idle 0, nobody's turn 1\ndamaged  1\n\nflow      marked        sent        free   forfeited  share of slots\n   0           0           0           0           0           0.0 %\n   1           0           1           0           0         100.0 %\n   2           0           0           0           0           0.0 %\n",
    ),
    // A slot whose counts differ: nobody's turn, and sent free.
    (
        &[0, 10, 1, 255, 0, 4, 0, 1, 0, 0, 0, 6],
        "slot 6: nobody's turn, flow 0 sends, free\n\nslots  1, of these idle 0, nobody's turn 1\n\nflow      marked        sent        free   forfeited  share of slots\n   0           0           1           1           0         100.0 %\n",
    ),
    // Nearly a refusal.
    (
        &[0, 2, 2, 16],
        "record 0: refused: number 13: there are not twelve bytes, or the length is not 10\n\nslots  0, of these idle 0, nobody's turn 0\ndamaged  1\n",
    ),
    // Twelve bytes that begin as a refusal, and another version.
    (
        &[
            0, 2, 1, 16, 0, 0, 0, 0, 0, 0, 0, 0, 0, 10, 2, 0, 0, 1, 0, 1, 0, 0, 0, 0,
        ],
        "record 0: refused: number 13: there are not twelve bytes, or the length is not 10\nrecord 1: refused: number 14: the version is not 1\n\nslots  0, of these idle 0, nobody's turn 0\ndamaged  2\n",
    ),
];

#[test]
fn whole_inputs(rt: HostRuntime) -> Result<(), Fail> {
    for (bytes, words) in INPUTS.iter() {
        assert_eq!(rt; shown(rt.alloc(), *bytes)?.as_str(), *words);
    }
    Ok(())
}

/// An input that gives one byte at a time, and is interrupted before each.
#[derive(Drop)]
struct Dripping {
    rest: &'static [u8],
    interrupted: bool,
}

impl Read for Dripping {
    fn read(&mut self, buf: &mut [u8]) -> io::Result<usize> {
        self.interrupted = !self.interrupted;
        if self.interrupted {
            return Err(io::Error::from(ErrorKind::Interrupted));
        }
        if buf.is_empty() {
            return Ok(0);
        }
        self.rest.read(&mut buf[..1])
    }
}

#[test]
fn inputs_that_drip(rt: HostRuntime) -> Result<(), Fail> {
    for (bytes, words) in INPUTS.iter() {
        let input = Dripping {
            rest: *bytes,
            interrupted: false,
        };
        assert_eq!(rt; shown(rt.alloc(), input)?.as_str(), *words);
    }
    Ok(())
}

/// More records than are read at once.
const MANY: usize = 250;

#[test]
fn more_records_than_are_read_at_once(rt: HostRuntime) -> Result<(), Fail> {
    let mut bytes = Vec::new(rt.alloc());
    for _ in 0..MANY {
        bytes.extend_from_slice(&SLOTS[3].0)?;
    }
    let text = shown(rt.alloc(), bytes.as_slice())?;
    assert_eq!(rt; text.lines().count(), MANY + 6);
    assert!(rt; text.contains("\nslots  250, of these idle 250, nobody's turn 0\n"));
    Ok(())
}

/// An input that fails after its bytes.
#[derive(Drop)]
struct FailsAfter(&'static [u8]);

impl Read for FailsAfter {
    fn read(&mut self, buf: &mut [u8]) -> io::Result<usize> {
        if self.0.is_empty() {
            return Err(io::Error::from(ErrorKind::TimedOut));
        }
        self.0.read(buf)
    }
}

#[test]
fn what_came_before_a_failure_is_shown(rt: HostRuntime) -> Result<(), Fail> {
    let mut out = Vec::new(rt.alloc());
    let Err(error) = show(rt.alloc(), FailsAfter(&SLOTS[6].0), &mut out) else {
        return Err(Fail::new("it was shown"));
    };
    assert_eq!(rt; error.kind(), ErrorKind::TimedOut);
    assert_eq!(rt;
        out.as_slice(),
        b"slot 7: nobody's turn, nobody sends\n".as_slice()
    );
    Ok(())
}

/// An output that shows a byte only once it is flushed.
#[derive(Drop)]
struct Held {
    written: usize,
    shown: usize,
}

impl Write for Held {
    fn write(&mut self, buf: &[u8]) -> io::Result<usize> {
        self.written = self.written.saturating_add(buf.len());
        Ok(buf.len())
    }

    fn flush(&mut self) -> io::Result<()> {
        self.shown = self.written;
        Ok(())
    }
}

#[test]
fn a_record_is_shown_before_the_input_ends(rt: HostRuntime) -> Result<(), Fail> {
    let mut held = Held {
        written: 0,
        shown: 0,
    };
    assert!(rt; show(rt.alloc(), FailsAfter(&SLOTS[6].0), &mut held).is_err());
    assert_eq!(rt; held.shown, "slot 7: nobody's turn, nobody sends\n".len());
    Ok(())
}

/// An output that takes nothing.
#[derive(Drop)]
struct Full;

impl Write for Full {
    fn write(&mut self, _buf: &[u8]) -> io::Result<usize> {
        Err(io::Error::from(ErrorKind::TimedOut))
    }

    fn flush(&mut self) -> io::Result<()> {
        Ok(())
    }
}

#[test]
fn an_output_that_fails(rt: HostRuntime) -> Result<(), Fail> {
    let Err(error) = show(rt.alloc(), SLOTS[6].0.as_slice(), Full) else {
        return Err(Fail::new("it was shown"));
    };
    assert_eq!(rt; error.kind(), ErrorKind::TimedOut);
    Ok(())
}
