//! What the stream calls decide by themselves: when they write, flush, read on and stop.

use crate::fakes::{Bytewise, Full, Held, Pieces, Stuck, Watching};
use crate::runs::RUNS;
use runner::Run;
use runner::streams::run;
use std::cell::Cell;
use std::io;
use std::io::ErrorKind;
use std::test::Fail;

/// A table of one flow of weight 1 under round robin, which may neither lag nor lead.
const TABLE: [u8; 10] = [0x00, 0x08, 0x01, 0x01, 0x00, 0x01, 0x01, 0x00, 0x00, 0x00];

/// A control phase in which nobody is clean.
const PHASE: [u8; 3] = [0x53, 0x00, 0x00];

/// An event that begins with no known byte.
const UNKNOWN: [u8; 1] = [0x42];

/// The kind of the error that a call ends with.
fn error_kind(answer: io::Result<()>) -> Result<ErrorKind, Fail> {
    match answer {
        Ok(()) => Err(Fail::new("nothing failed")),
        Err(error) => Ok(error.kind()),
    }
}

#[test]
fn input_that_falters_and_fails(rt: HostRuntime) -> Result<(), Fail> {
    let mut output = Vec::new(rt.alloc());
    let pieces: [&[u8]; 4] = [&TABLE[..3], &TABLE[3..], &PHASE[..1], &PHASE[1..]];
    let mut input = Pieces::new(&pieces);
    let answer = run(&mut input, &mut output);
    assert_eq!(rt; error_kind(answer)?, ErrorKind::TimedOut);
    assert_eq!(rt; input.reads, 10);
    let record = [0x00, 0x0a, 0x01, 0xff, 0xff, 0x00, 0x00, 0x01, 0, 0, 0, 0];
    assert_eq!(rt; output.as_slice(), record.as_slice());
    Ok(())
}

#[test]
fn nothing_is_read_after_a_refusal(rt: HostRuntime) -> Result<(), Fail> {
    let mut output = Vec::new(rt.alloc());
    let pieces: [&[u8]; 4] = [&TABLE, &UNKNOWN, &PHASE, &[]];
    let mut input = Pieces::new(&pieces);
    run(&mut input, &mut output)?;
    assert_eq!(rt; output.as_slice(), [0x00, 0x02, 0x01, 0x10].as_slice());
    assert_eq!(rt; input.reads, 4);
    Ok(())
}

#[test]
fn nothing_is_read_after_the_end(rt: HostRuntime) -> Result<(), Fail> {
    let mut output = Vec::new(rt.alloc());
    let pieces: [&[u8]; 3] = [&TABLE, &[], &PHASE];
    let mut input = Pieces::new(&pieces);
    run(&mut input, &mut output)?;
    assert_eq!(rt; output.as_slice(), [].as_slice());
    assert_eq!(rt; input.reads, 4);
    Ok(())
}

#[test]
fn nothing_is_read_after_the_output_failed(rt: HostRuntime) -> Result<(), Fail> {
    let pieces: [&[u8]; 4] = [&TABLE, &PHASE, &PHASE, &[]];
    let mut input = Pieces::new(&pieces);
    let answer = run(&mut input, &mut Full { room: 11 });
    assert_eq!(rt; error_kind(answer)?, ErrorKind::StorageFull);
    assert_eq!(rt; input.reads, 4);
    Ok(())
}

#[test]
fn output_that_fails_at_any_byte(rt: HostRuntime) -> Result<(), Fail> {
    // A record, and the refusal of a second event.
    let pieces: [&[u8]; 4] = [&TABLE, &PHASE, &PHASE[..2], &[]];
    for room in 0..16 {
        let answer = run(&mut Pieces::new(&pieces), &mut Full { room });
        assert_eq!(rt; error_kind(answer)?, ErrorKind::StorageFull);
    }
    run(&mut Pieces::new(&pieces), &mut Full { room: 16 })?;
    Ok(())
}

#[test]
fn feeding_an_output_that_fails(rt: HostRuntime) -> Result<(), Fail> {
    for room in 0..4 {
        let mut fed = Run::new();
        let mut output = Full { room };
        fed.feed(&TABLE, &mut output)?;
        let answer = fed.feed(&UNKNOWN, &mut output);
        assert_eq!(rt; error_kind(answer)?, ErrorKind::StorageFull);
        let answer = Run::new().finish(&mut Full { room });
        assert_eq!(rt; error_kind(answer)?, ErrorKind::StorageFull);
    }
    let mut fed = Run::new();
    fed.feed(&TABLE, &mut Full { room: 0 })?;
    fed.finish(&mut Full { room: 0 })?;
    Run::new().finish(&mut Full { room: 4 })?;
    Ok(())
}

#[test]
fn output_that_takes_a_byte_at_a_time(rt: HostRuntime) -> Result<(), Fail> {
    let (mut input, expected) = RUNS[0];
    let mut output = Bytewise {
        taken: Vec::new(rt.alloc()),
        interrupted: false,
    };
    run(&mut input, &mut output)?;
    assert_eq!(rt; output.taken.as_slice(), expected);
    Ok(())
}

#[test]
fn all_is_shown_before_the_next_read(rt: HostRuntime) -> Result<(), Fail> {
    let pieces: [&[u8]; 4] = [&TABLE, &PHASE, &PHASE, &PHASE[..2]];
    let shown = Cell::new(0);
    let mut input = Watching {
        rest: &pieces,
        output: &shown,
        shown: Vec::new(rt.alloc()),
    };
    run(&mut input, &mut Held::new(&shown))?;
    assert_eq!(rt; input.shown.as_slice(), [0, 0, 12, 24, 24].as_slice());
    // The refusal of the cut event.
    assert_eq!(rt; shown.get(), 28);
    Ok(())
}

#[test]
fn a_refusal_is_shown_at_once(rt: HostRuntime) -> Result<(), Fail> {
    let pieces: [&[u8]; 2] = [&TABLE, &UNKNOWN];
    let shown = Cell::new(0);
    let mut input = Watching {
        rest: &pieces,
        output: &shown,
        shown: Vec::new(rt.alloc()),
    };
    run(&mut input, &mut Held::new(&shown))?;
    assert_eq!(rt; shown.get(), 4);
    Ok(())
}

#[test]
fn flush_that_fails(rt: HostRuntime) -> Result<(), Fail> {
    let pieces: [&[u8]; 3] = [&TABLE, &PHASE, &[]];
    for flushes in 0..3 {
        let mut input = Pieces::new(&pieces);
        let answer = run(&mut input, &mut Stuck { flushes });
        assert_eq!(rt; error_kind(answer)?, ErrorKind::BrokenPipe);
        assert_eq!(rt; input.reads, 2 + 2 * flushes);
    }
    run(&mut Pieces::new(&pieces), &mut Stuck { flushes: 3 })?;
    Ok(())
}
