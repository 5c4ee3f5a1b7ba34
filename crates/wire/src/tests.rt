use crate::{Kind, Layer, Record, RecordFault, Refusal, Table, WriteFault};
use std::process::Abort;
use std::test::Fail;

/// Reads a table and writes it again, three bytes into an output: the same bytes, and no other byte changed.
fn reads_and_writes_back(rt: &impl Abort, bytes: &[u8]) -> Result<Table, Fail> {
    let table = Table::read(bytes)?;
    let mut out = [9; 80];
    let next = table.write(&mut out, 3)?;
    assert!(rt; next < 80);
    assert_eq!(rt; &out[3..next], bytes);
    assert_eq!(rt; &out[..3], [9, 9, 9].as_slice());
    assert_eq!(rt; out[next], 9);
    Ok(table)
}

#[test]
fn tables_of_one_flow(rt: HostRuntime) -> Result<(), Fail> {
    let least = reads_and_writes_back(&rt, &[0, 8, 1, 1, 0, 1, 1, 0, 0, 0])?;
    assert_eq!(rt; least.kind(), Kind::RoundRobin);
    assert_eq!(rt; least.total_weight(), 1);
    let most = reads_and_writes_back(&rt, &[0, 8, 1, 2, 16, 1, 16, 16, 255, 255])?;
    assert_eq!(rt; most.kind(), Kind::Tags);
    assert_eq!(rt; most.lookahead(), 16);
    Ok(())
}

/// Sets the delay weights of sixteen flows to 0.
fn without_delay_weights(bytes: &mut [u8]) {
    for delay_weight in bytes.iter_mut().skip(7).step_by(4) {
        *delay_weight = 0;
    }
}

#[test]
fn tables_of_sixteen_flows(rt: HostRuntime) -> Result<(), Fail> {
    let mut bytes = [16; 70];
    bytes[0] = 0;
    bytes[1] = 68;
    bytes[2] = 1;
    bytes[3] = 2;
    let tags = reads_and_writes_back(&rt, &bytes)?;
    assert_eq!(rt; tags.flow_count(), 16);
    assert_eq!(rt; tags.total_weight(), 256);
    assert!(rt; tags.line(15).is_some() && tags.line(16).is_none());
    bytes[3] = 1;
    bytes[4] = 0;
    without_delay_weights(&mut bytes);
    let robin = reads_and_writes_back(&rt, &bytes)?;
    assert_eq!(rt; robin.kind(), Kind::RoundRobin);
    assert_eq!(rt; robin.flow_count(), 16);
    Ok(())
}

/// Tables that are refused, each with its number, byte and layer.
const REFUSED_TABLES: [(&[u8], u8, u16, Layer); 12] = [
    (&[], 1, 0, Layer::Frame),
    (&[0, 9, 1, 1, 0, 1, 1, 0, 0, 0], 1, 0, Layer::Frame),
    (&[0, 8, 2, 1, 0, 1, 1, 0, 0, 0], 2, 2, Layer::Frame),
    (&[0, 8, 1, 3, 0, 1, 1, 0, 0, 0], 3, 3, Layer::Header),
    (&[0, 8, 1, 1, 1, 1, 1, 0, 0, 0], 3, 4, Layer::Header),
    (&[0, 8, 1, 2, 17, 1, 1, 1, 0, 0], 3, 4, Layer::Header),
    (&[0, 4, 1, 1, 0, 0], 4, 5, Layer::Header),
    (&[0, 8, 1, 1, 0, 2, 1, 0, 0, 0], 4, 5, Layer::Header),
    (&[0, 8, 1, 1, 0, 1, 17, 0, 0, 0], 5, 6, Layer::Line),
    (&[0, 8, 1, 1, 0, 1, 1, 1, 0, 0], 5, 7, Layer::Line),
    (
        &[0, 12, 1, 2, 0, 2, 1, 1, 0, 0, 0, 0, 0, 0],
        5,
        10,
        Layer::Line,
    ),
    (
        &[0, 12, 1, 2, 0, 2, 1, 1, 0, 0, 1, 0, 0, 0],
        5,
        11,
        Layer::Line,
    ),
];

#[test]
fn faults_of_a_table(rt: HostRuntime) -> Result<(), Fail> {
    for (bytes, number, byte, layer) in REFUSED_TABLES.iter() {
        let Err(fault) = Table::read(bytes) else {
            return Err(Fail::new("it was read"));
        };
        let refusal = Refusal {
            number: *number,
            byte: *byte,
            layer: *layer,
        };
        assert_eq!(rt; fault.refusal(), refusal);
    }
    Ok(())
}

/// Seven slots of a cell of two flows.
const RECORDS: [[u8; 12]; 7] = [
    [0, 10, 1, 0, 1, 3, 2, 2, 0, 0, 0, 0],
    [0, 10, 1, 1, 1, 1, 0, 2, 0, 0, 0, 1],
    [0, 10, 1, 0, 0, 1, 0, 2, 0, 0, 0, 2],
    [0, 10, 1, 1, 0, 2, 1, 2, 0, 0, 0, 3],
    [0, 10, 1, 0, 255, 0, 3, 2, 0, 0, 0, 4],
    [0, 10, 1, 1, 1, 1, 0, 2, 0, 0, 0, 5],
    [0, 10, 1, 255, 0, 4, 0, 2, 0, 0, 0, 6],
];

#[test]
fn records_read_and_written_back(rt: HostRuntime) -> Result<(), Fail> {
    for (slot, bytes) in RECORDS.iter().enumerate() {
        let record = Record::read(bytes)?;
        assert_eq!(rt; record.slot() as usize, slot);
        let mut out = [9; 14];
        assert_eq!(rt; record.write(&mut out, 1)?, 13);
        assert_eq!(rt; &out[1..13], bytes.as_slice());
        assert!(rt; out[0] == 9 && out[13] == 9);
    }
    Ok(())
}

/// Records that are refused, each with its number.
const REFUSED_RECORDS: [(&[u8], u8); 8] = [
    (&[0, 10, 1], 13),
    (&[0, 11, 1, 0, 1, 3, 2, 2, 0, 0, 0, 0], 13),
    (&[0, 10, 2, 0, 1, 3, 2, 2, 0, 0, 0, 0], 14),
    (&[0, 10, 1, 0, 1, 5, 2, 2, 0, 0, 0, 0], 15),
    (&[0, 10, 1, 0, 1, 1, 0, 2, 0, 0, 0, 0], 15),
    (&[0, 10, 1, 0, 2, 3, 2, 2, 0, 0, 0, 0], 15),
    (&[0, 10, 1, 0, 1, 3, 3, 2, 0, 0, 0, 0], 15),
    (&[0, 10, 1, 0, 1, 3, 2, 2, 59, 154, 202, 0], 15),
];

#[test]
fn faults_of_a_record(rt: HostRuntime) -> Result<(), Fail> {
    for (bytes, number) in REFUSED_RECORDS.iter() {
        let Err(fault) = Record::read(bytes) else {
            return Err(Fail::new("it was read"));
        };
        assert_eq!(rt; fault.number(), *number);
    }
    Ok(())
}

#[test]
fn writing_without_room(rt: HostRuntime) -> Result<(), Fail> {
    let record = Record::read(&RECORDS[0])?;
    let mut out = [9; 12];
    let Err(fault) = record.write(&mut out, 1) else {
        return Err(Fail::new("it was written"));
    };
    assert_eq!(rt; fault.number(), 12);
    assert_eq!(rt; out, [9; 12]);
    Ok(())
}

/// The faults of a record, in words.
const RECORD_FAULTS: [(RecordFault, &str); 3] = [
    (
        RecordFault::Length,
        "there are not twelve bytes, or the length is not 10",
    ),
    (RecordFault::Version, "the version is not 1"),
    (
        RecordFault::Field,
        "a field is out of its range, or fields do not go together",
    ),
];

#[test]
fn faults_of_records_and_of_writing_in_words(rt: HostRuntime) -> Result<(), Fail> {
    for (fault, words) in RECORD_FAULTS.iter() {
        let text = fault.to_string(rt.alloc())?;
        assert_eq!(rt; text.as_str(), *words);
    }
    let text = WriteFault::NoRoom.to_string(rt.alloc())?;
    assert_eq!(rt;
        text.as_str(),
        "there are too few bytes from the place on, or it lies past the end"
    );
    Ok(())
}
