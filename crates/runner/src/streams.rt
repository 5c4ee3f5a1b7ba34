//! Runs over a reader and a writer.

ghost use Rattle.std.specs.Prelude.{IfSome, OnOk};
ghost use Rattle.std.specs.Io.KnownBytes.{Appends};
ghost use Rattle.runner.specs.Output.{output_of};

use crate::Run;
use std::io;
use std::io::{ErrorKind, Read, Write};

/// How many bytes are read at a time, at most.
const CHUNK_BYTES: usize = 4096;

/// Runs a cell on all of an input, and writes its records and, if it is refused, the refusal. It reads the bytes as
/// they come, writes what they give and flushes it before it reads on, and reads nothing more once the run has stopped.
/// Where the input or the output fails, it fails, and nothing is promised of what was written by then.
pub fn run<R: Read, W: Write>(input: &mut R, output: &mut W) -> io::Result<()>
    ensures { OnOk result (IfSome (R.remaining input.old) (λ bytes. Appends (W.contents output.old) (W.contents output.new) (output_of bytes))) }
{
    let mut run = Run::new();
    let mut chunk = [0; CHUNK_BYTES];
    for _ in 0..u64::MAX {
        match input.read(&mut chunk) {
            Ok(0) => {
                run.finish(output)?;
                return output.flush();
            }
            Ok(count) => {
                run.feed(&chunk[..count], output)?;
                output.flush()?;
                if run.is_over() {
                    return Ok(());
                }
            }
            Err(error) if error.kind() == ErrorKind::Interrupted => {}
            Err(error) => return Err(error),
        }
    }
    Err(io::Error::new(ErrorKind::Other, "the input goes on for ever"))
}
