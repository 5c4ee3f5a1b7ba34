ghost use Rattle.std.specs.Prelude.{◌<◌, ◌≤◌, IfOk, IfSome, length};

use crate::damage_text::DamageText;
use crate::slot_text::SlotText;
use crate::tally_text::TallyText;
use std::alloc::Global;
use std::io;
use std::io::{BufWriter, ErrorKind, Read, Write};
use tally::Tally;
use wire::Record;
use words::RefusalText;

/// The bytes of a record.
const RECORD_BYTES: usize = 12;

/// The most bytes that are read at once.
const READ_AT_ONCE: usize = 100 * RECORD_BYTES;

/// What has been shown so far, and where.
#[derive(Drop)]
struct Shown<W: Write + Drop> {
    /// Where it is shown.
    out: BufWriter<W>,
    /// The counts over the records that were read.
    tally: Tally,
    /// How many were damaged.
    damaged: u64,
    /// How many stood before the next one, damaged ones among them.
    places: u64,
}

impl<W: Write + Drop> Shown<W> {
    /// Shows a record, or what is wrong with it.
    fn show_record(&mut self, bytes: &[u8]) -> io::Result<()> {
        let place = self.places;
        self.places = place.saturating_add(1);
        match Record::read(bytes) {
            Ok(record) => {
                self.tally.add(&record);
                let text = SlotText(record);
                writeln!(self.out, "{text}")
            }
            Err(fault) => {
                self.damaged = self.damaged.saturating_add(1);
                let text = DamageText { place, fault };
                writeln!(self.out, "{text}")
            }
        }
    }

    /// Shows records that have come, at once.
    fn show_records(&mut self, bytes: &[u8]) -> io::Result<()> {
        for record in bytes.chunks_exact(RECORD_BYTES) {
            self.show_record(record)?;
        }
        self.out.flush()
    }

    /// Shows the last bytes of the input, too few for a record: what refused the run, or a record cut short.
    // A refusal is told by its number alone, after a length of 2 and version 1.
    fn show_rest(&mut self, bytes: &[u8]) -> io::Result<()> {
        match bytes {
            [] => Ok(()),
            [0, 2, 1, number] => {
                let text = RefusalText(*number);
                writeln!(self.out, "the run was refused: {text}")
            }
            _ => self.show_record(bytes),
        }
    }

    /// Shows the last bytes of the input, and what all of it came to.
    fn finish(&mut self, rest: &[u8]) -> io::Result<()> {
        self.show_rest(rest)?;
        if self.places > 0 || !rest.is_empty() {
            self.out.write_all(b"\n")?;
        }
        let text = TallyText {
            tally: &self.tally,
            damaged: self.damaged,
        };
        write!(self.out, "{text}")?;
        self.out.flush()
    }
}

/// Reads once: how many bytes have come, which are none where the read was interrupted; nothing at the end of the
/// input.
fn read_once<R: Read>(input: &mut R, buffer: &mut [u8]) -> io::Result<Option<usize>>
    requires { 0 < length buffer.old }
    ensures { IfOk result (λ come. IfSome come (λ n. n ≤ length buffer.old)) }
{
    match input.read(buffer) {
        Ok(0) => Ok(None),
        Ok(come) => Ok(Some(come)),
        Err(error) if error.kind() == ErrorKind::Interrupted => Ok(Some(0)),
        Err(error) => Err(error),
    }
}

/// Shows what a run wrote, each record as soon as it has come, and at the end of the input what all of them came to.
pub fn show<R: Read + Drop, W: Write + Drop>(
    alloc: Global,
    mut input: R,
    output: W,
) -> io::Result<()> {
    let mut shown = Shown {
        out: BufWriter::new(alloc, output)?,
        tally: Tally::new(),
        damaged: 0,
        places: 0,
    };
    let mut buffer = [0; READ_AT_ONCE];
    let mut kept = 0;
    // Left at the end of the input; should so many reads not reach it, what has come is told.
    for _ in 0..u64::MAX {
        let Some(come) = read_once(&mut input, &mut buffer[kept..])? else {
            break;
        };
        let filled = kept + come;
        let whole = filled - filled % RECORD_BYTES;
        shown.show_records(&buffer[..whole])?;
        buffer.copy_within(whole..filled, 0);
        kept = filled - whole;
    }
    shown.finish(&buffer[..kept])
}
