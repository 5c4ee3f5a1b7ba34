ghost use Rattle.std.specs.Prelude.{◌<◌};

use crate::runs::{
    LONG_RUN_ARRIVAL, LONG_RUN_END, LONG_RUN_OUTPUT, LONG_RUN_PIECE, LONG_RUN_PIECES,
    LONG_RUN_TABLE, RUNS,
};
use runner::streams::run;
use runner::{Run, Slots};
use std::alloc::Global;
use std::io;
use std::io::Write;
use std::test::Fail;

/// What a run writes for an input that it is fed in pieces of this size.
fn fed_in_pieces(alloc: Global, input: &[u8], size: usize) -> io::Result<Vec<u8>>
    requires { 0 < size }
{
    let mut run = Run::new();
    let mut output = Vec::new(alloc);
    for piece in input.chunks(size) {
        run.feed(piece, &mut output)?;
    }
    run.finish(&mut output)?;
    Ok(output)
}

#[test]
fn runs_however_they_are_cut(rt: HostRuntime) -> Result<(), Fail> {
    for (input, expected) in RUNS {
        for size in [1, 2, 3, 7, 4096] {
            let output = fed_in_pieces(rt.alloc(), input, size)?;
            assert_eq!(rt; output.as_slice(), expected);
        }
    }
    Ok(())
}

#[test]
fn runs_over_a_reader_and_a_writer(rt: HostRuntime) -> Result<(), Fail> {
    for (input, expected) in RUNS {
        let mut output = Vec::new(rt.alloc());
        let mut rest = input;
        run(&mut rest, &mut output)?;
        assert_eq!(rt; output.as_slice(), expected);
    }
    Ok(())
}

#[test]
fn slots_of_a_whole_input(rt: HostRuntime) -> Result<(), Fail> {
    for (input, expected) in RUNS {
        let mut output = Vec::new(rt.alloc());
        for slot in Slots::of(input) {
            match slot {
                Ok(record) => output.write_all(&record.bytes())?,
                Err(fault) => output.write_all(&[0, 2, 1, fault.number()])?,
            }
        }
        assert_eq!(rt; output.as_slice(), expected);
    }
    Ok(())
}

#[test]
fn as_many_packets_as_may_arrive(rt: HostRuntime) -> Result<(), Fail> {
    let mut run = Run::new();
    let mut output = Vec::new(rt.alloc());
    run.feed(&LONG_RUN_TABLE, &mut output)?;
    let mut piece = Vec::new(rt.alloc());
    for _ in 0..LONG_RUN_PIECE {
        piece.extend_from_slice(&LONG_RUN_ARRIVAL)?;
    }
    for _ in 0..LONG_RUN_PIECES {
        run.feed(&piece, &mut output)?;
    }
    run.feed(&LONG_RUN_END, &mut output)?;
    assert!(rt; run.is_over());
    run.finish(&mut output)?;
    assert_eq!(rt; output.as_slice(), LONG_RUN_OUTPUT.as_slice());
    Ok(())
}

#[test]
fn a_hundred_thousand_slots(rt: HostRuntime) -> Result<(), Fail> {
    let mut run = Run::new();
    let mut output = Vec::new(rt.alloc());
    run.feed(&LONG_RUN_TABLE, &mut output)?;
    for _ in 0..100_000 {
        output.clear();
        run.feed(&[0x41, 0x00, 0x01, 0x53, 0x00, 0x01], &mut output)?;
    }
    assert!(rt; !run.is_over());
    run.finish(&mut output)?;
    let last = [
        0x00, 0x0a, 0x01, 0x00, 0x00, 0x01, 0x00, 0x01, 0x00, 0x01, 0x86, 0x9f,
    ];
    assert_eq!(rt; output.as_slice(), last.as_slice());
    Ok(())
}
