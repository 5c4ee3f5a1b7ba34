//! Inputs and outputs that fail, falter or take little at a time.

use std::cell::Cell;
use std::io;
use std::io::{ErrorKind, Read, Write};

/// An input that gives a piece at each read, and is interrupted before each one. An empty piece is
/// an end of the input. Behind the last piece it fails.
#[derive(Drop)]
pub(crate) struct Pieces<'a> {
    rest: &'a [&'a [u8]],
    interrupted: bool,
    /// How often it was read, interrupted reads among them.
    pub(crate) reads: usize,
}

impl<'a> Pieces<'a> {
    pub(crate) fn new(pieces: &'a [&'a [u8]]) -> Pieces<'a> {
        Pieces {
            rest: pieces,
            interrupted: false,
            reads: 0,
        }
    }
}

impl Read for Pieces<'_> {
    fn read(&mut self, buf: &mut [u8]) -> io::Result<usize> {
        self.reads = self.reads.saturating_add(1);
        self.interrupted = !self.interrupted;
        if self.interrupted {
            return Err(io::Error::from(ErrorKind::Interrupted));
        }
        let [piece, behind @ ..] = self.rest else {
            return Err(io::Error::from(ErrorKind::TimedOut));
        };
        self.rest = behind;
        let mut piece = *piece;
        piece.read(buf)
    }
}

/// An input that gives a piece at each read, and then ends. It keeps how much of the output was
/// shown at each read.
#[derive(Drop)]
pub(crate) struct Watching<'a> {
    pub(crate) rest: &'a [&'a [u8]],
    pub(crate) output: &'a Cell<usize>,
    pub(crate) shown: Vec<usize>,
}

impl Read for Watching<'_> {
    fn read(&mut self, buf: &mut [u8]) -> io::Result<usize> {
        self.shown.push(self.output.get())?;
        let [piece, behind @ ..] = self.rest else {
            return Ok(0);
        };
        self.rest = behind;
        let mut piece = *piece;
        piece.read(buf)
    }
}

/// An output that shows a byte only once it is flushed. It counts the bytes.
#[derive(Drop)]
pub(crate) struct Held<'a> {
    written: usize,
    shown: &'a Cell<usize>,
}

impl<'a> Held<'a> {
    pub(crate) fn new(shown: &'a Cell<usize>) -> Held<'a> {
        Held { written: 0, shown }
    }
}

impl Write for Held<'_> {
    fn write(&mut self, buf: &[u8]) -> io::Result<usize> {
        self.written = self.written.saturating_add(buf.len());
        Ok(buf.len())
    }

    fn flush(&mut self) -> io::Result<()> {
        self.shown.set(self.written);
        Ok(())
    }
}

/// An output that has room for this many bytes, and then fails.
#[derive(Drop)]
pub(crate) struct Full {
    pub(crate) room: usize,
}

impl Write for Full {
    fn write(&mut self, buf: &[u8]) -> io::Result<usize> {
        if self.room == 0 {
            return Err(io::Error::from(ErrorKind::StorageFull));
        }
        let size = self.room.min(buf.len());
        self.room -= size;
        Ok(size)
    }

    fn flush(&mut self) -> io::Result<()> {
        Ok(())
    }
}

/// An output that takes one byte at a time, and before each one is interrupted.
#[derive(Drop)]
pub(crate) struct Bytewise {
    pub(crate) taken: Vec<u8>,
    pub(crate) interrupted: bool,
}

impl Write for Bytewise {
    fn write(&mut self, buf: &[u8]) -> io::Result<usize> {
        self.interrupted = !self.interrupted;
        if self.interrupted {
            return Err(io::Error::from(ErrorKind::Interrupted));
        }
        let Some(byte) = buf.first() else {
            return Ok(0);
        };
        self.taken.push(*byte)?;
        Ok(1)
    }

    fn flush(&mut self) -> io::Result<()> {
        Ok(())
    }
}

/// An output that takes every byte, and fails after this many flushes.
#[derive(Drop)]
pub(crate) struct Stuck {
    pub(crate) flushes: usize,
}

impl Write for Stuck {
    fn write(&mut self, buf: &[u8]) -> io::Result<usize> {
        Ok(buf.len())
    }

    fn flush(&mut self) -> io::Result<()> {
        if self.flushes == 0 {
            return Err(io::Error::from(ErrorKind::BrokenPipe));
        }
        self.flushes -= 1;
        Ok(())
    }
}
