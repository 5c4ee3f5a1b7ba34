ghost use Rattle.std.specs.Prelude.{◌≡◌, ◌<◌, [], OnOk, length};
ghost use Rattle.std.specs.Io.KnownBytes.{Appends};
ghost use Rattle.fault.specs.Faults.{run_number};
ghost use Rattle.runner.specs.Feeding.{Fed, RunTaken, output_to_come, stop_bytes};
ghost use Rattle.runner.specs.Output.{refusal_bytes};

use crate::Run;
use crate::event::EVENT_BYTES;
use crate::events::{Records, add_record};
use crate::stage::Stage;
use fault::RunFault;
use std::io;
use std::io::Write;

/// The bytes of a refusal: version 1 and its number, after their length.
fn refusal_bytes(fault: RunFault) -> [u8; 4]
    ensures { result ≡ refusal_bytes (run_number fault) }
{
    [0, 2, 1, fault.number()]
}

/// Writes a refusal, if there is one.
fn write_refusal<W: Write>(answer: Result<(), RunFault>, output: &mut W) -> io::Result<()>
    ensures { OnOk result
        (Appends (W.contents output.old) (W.contents output.new) (stop_bytes answer)) }
{
    match answer {
        Ok(()) => Ok(()),
        Err(fault) => output.write_all(&refusal_bytes(fault)),
    }
}

impl Run {
    /// Takes one byte from the front of the bytes. Adds the bytes of the record that it gives, if
    /// it gives one; returns why the run stops, if it does, and the bytes left.
    fn take_one<'a>(
        &mut self,
        bytes: &'a [u8],
        records: &mut Records,
    ) -> (Result<(), RunFault>, &'a [u8])
        requires empty { records.old.items ≡ [] }
        ensures taken { RunTaken self.old bytes.now records.new.items
            self.new result.1.now result.0 }
        ensures moves_on { 0 < length bytes.now → length result.1.now < length bytes.now }
    {
        let [byte, behind @ ..] = bytes else {
            return (Ok(()), bytes);
        };
        match self.push(*byte) {
            Ok(None) => (Ok(()), behind),
            Ok(Some(record)) => {
                add_record(records, &record);
                (Ok(()), behind)
            }
            Err(fault) => (Err(fault), behind),
        }
    }

    /// Takes bytes from the front of the bytes: whole events, as many as are taken at once, or else
    /// one byte. Adds the bytes of the records that they give; returns why the run stops, if it
    /// does, and the bytes left.
    pub(crate) fn take<'a>(
        &mut self,
        bytes: &'a [u8],
        records: &mut Records,
    ) -> (Result<(), RunFault>, &'a [u8])
        requires empty { records.old.items ≡ [] }
        ensures taken { RunTaken self.old bytes.now records.new.items
            self.new result.1.now result.0 }
        ensures moves_on { 0 < length bytes.now → length result.1.now < length bytes.now }
    {
        match &mut self.stage {
            Stage::Events(events) if events.between() && bytes.len() >= EVENT_BYTES => {
                let (answer, behind) = events.take_front(bytes, records);
                if answer.is_err() {
                    self.stage = Stage::Over;
                }
                (answer, behind)
            }
            _ => self.take_one(bytes, records),
        }
    }

    /// Takes the next bytes of the input, and writes what they give. Once the output has failed, the run is of no more
    /// use.
    pub fn feed<W: Write>(&mut self, input: &[u8], output: &mut W) -> io::Result<()>
        ensures { OnOk result
            (Fed self.old input.now self.new (W.contents output.old) (W.contents output.new)) }
    {
        let mut rest = input;
        while !rest.is_empty() {
            let mut records = Records::new();
            let (answer, behind) = self.take(rest, &mut records);
            output.write_all(&records)?;
            if answer.is_err() {
                return write_refusal(answer, output);
            }
            rest = behind;
        }
        Ok(())
    }

    /// Ends the input, and writes what that gives: a refusal, if the input ends within a table or
    /// an event.
    pub fn finish<W: Write>(mut self, output: &mut W) -> io::Result<()>
        ensures { OnOk result
            (Appends (W.contents output.old) (W.contents output.new) (output_to_come self [])) }
    {
        write_refusal(self.end(), output)
    }
}
