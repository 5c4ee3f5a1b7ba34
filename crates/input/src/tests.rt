use crate::read_table;
use std::cell::Cell;
use std::io;
use std::io::{ErrorKind, Read};
use std::test::Fail;
use wire::{FrameFault, HeaderFault, LineFault};

/// A table of one flow.
const TABLE: [u8; 10] = [0, 8, 1, 2, 16, 1, 1, 16, 0, 0];

#[test]
fn tables_of_an_input(rt: HostRuntime) -> Result<(), Fail> {
    let table = read_table(rt.alloc(), TABLE.as_slice())??;
    assert_eq!(rt; table.lookahead(), 16);
    assert_eq!(rt; table.total_weight(), 1);
    let too_short = LineFault::Header(HeaderFault::Frame(FrameFault::Length));
    let Err(fault) = read_table(rt.alloc(), &TABLE[..9])? else {
        return Err(Fail::new("it was read"));
    };
    assert_eq!(rt; fault, too_short);
    Ok(())
}

#[test]
fn a_table_and_a_long_rest(rt: HostRuntime) -> Result<(), Fail> {
    let mut bytes = vec![in rt.alloc(); 0u8; 65_540]?;
    bytes[..10].copy_from_slice(&TABLE);
    let too_long = LineFault::Header(HeaderFault::Frame(FrameFault::Length));
    let Err(fault) = read_table(rt.alloc(), bytes.as_slice())? else {
        return Err(Fail::new("it was read"));
    };
    assert_eq!(rt; fault, too_long);
    Ok(())
}

/// An input that gives a byte at each read, is interrupted before each one, and fails behind the
/// last one.
#[derive(Drop)]
struct Faltering<'a> {
    rest: &'a [u8],
    interrupted: bool,
}

impl Read for Faltering<'_> {
    fn read(&mut self, buf: &mut [u8]) -> io::Result<usize> {
        self.interrupted = !self.interrupted;
        if self.interrupted {
            return Err(io::Error::from(ErrorKind::Interrupted));
        }
        if self.rest.is_empty() {
            return Err(io::Error::from(ErrorKind::TimedOut));
        }
        let size = buf.len().min(1);
        self.rest.read(&mut buf[..size])
    }
}

#[test]
fn inputs_that_fail(rt: HostRuntime) -> Result<(), Fail> {
    for size in 0..=TABLE.len() {
        let input = Faltering {
            rest: &TABLE[..size],
            interrupted: false,
        };
        let Err(error) = read_table(rt.alloc(), input) else {
            return Err(Fail::new("it was read"));
        };
        assert_eq!(rt; error.kind(), ErrorKind::TimedOut);
    }
    Ok(())
}

#[test]
fn an_input_that_falters(rt: HostRuntime) -> Result<(), Fail> {
    let input = Faltering {
        rest: &TABLE,
        interrupted: false,
    };
    let table = read_table(rt.alloc(), input.take(10))??;
    assert_eq!(rt; table.lookahead(), 16);
    Ok(())
}

/// An input of zeros without end. It counts the bytes that it gave.
#[derive(Drop)]
struct Endless<'a> {
    given: &'a Cell<usize>,
}

impl Read for Endless<'_> {
    fn read(&mut self, buf: &mut [u8]) -> io::Result<usize> {
        buf.fill(0);
        self.given.set(self.given.get().saturating_add(buf.len()));
        Ok(buf.len())
    }
}

#[test]
fn no_more_is_read_than_decides(rt: HostRuntime) -> Result<(), Fail> {
    let given = Cell::new(0);
    let Err(fault) = read_table(rt.alloc(), Endless { given: &given })? else {
        return Err(Fail::new("it was read"));
    };
    assert_eq!(rt; fault.refusal().number, 1);
    assert_eq!(rt; given.get(), 65_538);
    Ok(())
}
