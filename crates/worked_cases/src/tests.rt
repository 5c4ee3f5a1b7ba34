use cell::{Cell, Refused, ReportSet};
use cell_rules::row::Row;
use fault::{
    ArrivalFault, CreationFault, DecisionFault, EventFault, FlagFault, Layer, OpeningFault,
    RunFault,
};
use reference::Reference;
use round_robin::RoundRobin;
use std::mem::size_of;
use std::process::Abort;
use std::test::Fail;
use table::Table;
use table_reference::TableReference;
use tags::Tags;

/// Two flows of weight 1 under round robin, with limits of 2.
const TWO_FLOWS: [u8; 14] = [0, 12, 1, 1, 0, 2, 1, 0, 2, 2, 1, 0, 2, 2];

/// One flow of weight 1 under tags.
const ONE_FLOW: [u8; 10] = [0, 8, 1, 2, 0, 1, 1, 1, 0, 0];

/// The cell of a table over the table's own reference.
fn cell_of(bytes: &[u8]) -> Result<Cell<TableReference>, Fail> {
    let reference = TableReference::of(&Table::read(bytes)?);
    Ok(Cell::create(bytes, reference).map_err(|refused| refused.fault)?)
}

/// A report set of a cell in which every flow has flagged; bit i of the mask is set if flow i is clean.
fn reports_of(cell: &Cell<TableReference>, clean: u16) -> Result<ReportSet, Fail> {
    let mut reports = cell.open_phase()?;
    for flow in 0..cell.flow_count() {
        reports.flag(flow, flow < 16 && clean >> flow & 1 == 1)?;
    }
    Ok(reports)
}

/// The clean flows of the worked example's seven slots, and what its records say after length and version.
const SEVEN_SLOTS: [(u16, [u8; 9]); 7] = [
    (2, [0, 1, 3, 2, 2, 0, 0, 0, 0]),
    (3, [1, 1, 1, 0, 2, 0, 0, 0, 1]),
    (3, [0, 0, 1, 0, 2, 0, 0, 0, 2]),
    (3, [1, 0, 2, 1, 2, 0, 0, 0, 3]),
    (0, [0, 255, 0, 3, 2, 0, 0, 0, 4]),
    (3, [1, 1, 1, 0, 2, 0, 0, 0, 5]),
    (3, [255, 0, 4, 0, 2, 0, 0, 0, 6]),
];

#[test]
fn seven_slots_of_two_flows(rt: HostRuntime) -> Result<(), Fail> {
    let mut cell = cell_of(&TWO_FLOWS)?;
    cell.arrive(0, 3)?;
    cell.arrive(1, 3)?;
    for (clean, fields) in SEVEN_SLOTS {
        let reports = reports_of(&cell, clean)?;
        let record = cell.decide(reports)?;
        assert_eq!(rt; &record.bytes()[3..], fields.as_slice());
    }
    assert_eq!(rt; cell.slot(), 7);
    let first = Row {
        arrived: 3,
        marked: 3,
        sent: 3,
        free: 1,
        forfeited: 1,
        lag_limit: 2,
        lead_limit: 2,
        ..Row::default()
    };
    assert_eq!(rt; cell.flow(0), Some(first));
    assert_eq!(rt; cell.flow(2), None);
    Ok(())
}

#[test]
fn flags_of_the_rest(rt: HostRuntime) -> Result<(), Fail> {
    let cell = cell_of(&TWO_FLOWS)?;
    let mut reports = cell.open_phase()?;
    reports.flag(0, false)?;
    reports.flag_rest(0xffff);
    assert!(rt; reports.has_flagged(1) && !reports.has_flagged(2));
    assert!(rt; reports.is_clean(1) && !reports.is_clean(0) && !reports.is_clean(2));
    let mut at_once = cell.open_phase()?;
    at_once.flag_rest(0xfffe);
    assert_eq!(rt; at_once, reports_of(&cell, 2)?);
    Ok(())
}

// A cell lies in one piece, with no part of it elsewhere: so these are all of its bytes.
#[test]
fn the_size_of_a_cell(rt: HostRuntime) -> Result<(), Fail> {
    assert_eq!(rt; size_of::<Cell<RoundRobin>>(), 512);
    assert_eq!(rt; size_of::<Cell<Tags>>(), 660);
    assert_eq!(rt; size_of::<Cell<TableReference>>(), 664);
    Ok(())
}

/// What a refused decision handed back, where it is refused.
fn handed_back(
    cell: &mut Cell<TableReference>,
    reports: ReportSet,
) -> Result<Refused<DecisionFault, ReportSet>, Fail> {
    match cell.decide(reports) {
        Ok(_) => Err(Fail::new("it was decided")),
        Err(refused) => Ok(refused),
    }
}

#[test]
fn a_set_is_decided_on_once(rt: HostRuntime) -> Result<(), Fail> {
    let mut cell = cell_of(&TWO_FLOWS)?;
    cell.arrive(1, 1)?;
    let late = reports_of(&cell, 2)?;
    let reports = reports_of(&cell, 3)?;
    cell.decide(reports)?;
    let before = cell.flow(1);
    let refused = handed_back(&mut cell, late)?;
    assert_eq!(rt; refused.fault.number(), 11);
    assert!(rt; refused.given.slot() == 0 && refused.given.flow_count() == 2);
    assert!(rt; !refused.given.is_clean(0) && refused.given.is_clean(1));
    assert!(rt; cell.slot() == 1 && cell.flow(1) == before);
    Ok(())
}

#[test]
fn a_set_of_another_cell(rt: HostRuntime) -> Result<(), Fail> {
    let mut cell = cell_of(&TWO_FLOWS)?;
    let mut other = cell_of(&ONE_FLOW)?;
    let refused = handed_back(&mut cell, reports_of(&other, 1)?)?;
    assert_eq!(rt; refused.fault, DecisionFault::NotForThisSlot);
    assert_eq!(rt; cell.slot(), 0);
    let record = other.decide(refused.given)?;
    assert!(rt; record.marked().is_none() && record.flow_count() == 1);
    Ok(())
}

#[test]
fn arrivals_that_are_refused(rt: HostRuntime) -> Result<(), Fail> {
    let mut cell = cell_of(&TWO_FLOWS)?;
    assert!(rt; cell.arrive(2, 1).is_err_and(|fault| fault.number() == 6));
    cell.arrive(1, 1_000_000_000)?;
    let before = cell.flow(1);
    assert!(rt; cell.arrive(1, 1).is_err_and(|fault| fault.number() == 7));
    assert!(rt; cell.flow(1) == before && cell.flow(0).is_some_and(|row| row.arrived == 0));
    Ok(())
}

#[test]
fn flags_that_are_refused(rt: HostRuntime) -> Result<(), Fail> {
    let cell = cell_of(&TWO_FLOWS)?;
    let mut reports = cell.open_phase()?;
    reports.flag(1, false)?;
    assert!(rt;
        reports
            .flag(2, true)
            .is_err_and(|fault| fault.number() == 9)
    );
    assert!(rt;
        reports
            .flag(1, true)
            .is_err_and(|fault| fault.number() == 10)
    );
    assert!(rt; reports.has_flagged(1) && !reports.is_clean(1));
    Ok(())
}

/// Tables that are refused over a reference of one flow, each with its number and byte: another flow count is told
/// before a line that is wrong, and after what is wrong up to the header.
const REFUSED_OVER_ONE_FLOW: [(&[u8], u8, u16); 4] = [
    (&[0, 12, 1, 1, 0, 2, 0, 0, 2, 2, 1, 0, 2, 2], 4, 5),
    (&[0, 12, 1, 3, 0, 2, 1, 0, 2, 2, 1, 0, 2, 2], 3, 3),
    (&[0, 8, 1, 1, 0, 1, 0, 0, 2, 2], 5, 6),
    (&[0, 8, 1, 1, 0, 2, 1, 0, 2, 2], 4, 5),
];

#[test]
fn the_first_fault_of_a_creation_is_told(rt: HostRuntime) -> Result<(), Fail> {
    for (bytes, number, byte) in REFUSED_OVER_ONE_FLOW {
        let reference = TableReference::of(&Table::read(&ONE_FLOW)?);
        let Err(refused) = Cell::create(bytes, reference) else {
            return Err(Fail::new("it was created"));
        };
        let told = refused.fault.refusal();
        assert!(rt; told.number == number && told.byte == byte);
    }
    Ok(())
}

#[test]
fn a_creation_that_is_refused_gives_the_reference_back(rt: HostRuntime) -> Result<(), Fail> {
    let mut reference = TableReference::of(&Table::read(&ONE_FLOW)?);
    reference.enter(0);
    let Err(refused) = Cell::create(&TWO_FLOWS, reference) else {
        return Err(Fail::new("it was created"));
    };
    assert_eq!(rt; refused.fault, CreationFault::FlowCount);
    let told = refused.fault.refusal();
    assert!(rt; told.number == 4 && told.byte == 5 && told.layer == Layer::Header);
    assert!(rt; refused.given.is_due(0));
    let cell = Cell::create(&ONE_FLOW, refused.given).map_err(|refused| refused.fault)?;
    assert!(rt; !cell.reference().is_due(0));
    Ok(())
}

/// The faults of a cell and of a run, in words.
#[test]
fn faults_in_words(rt: HostRuntime) -> Result<(), Fail> {
    let texts = [
        (
            RunFault::from(CreationFault::FlowCount),
            "the flow count is not that of the reference",
        ),
        (ArrivalFault::NoSuchFlow.into(), "the cell has no such flow"),
        (
            ArrivalFault::TooMany.into(),
            "more than 1,000,000,000 packets would have arrived for the flow",
        ),
        (
            OpeningFault::AllDecided.into(),
            "the cell has decided 1,000,000,000 slots",
        ),
        (
            EventFault::Unknown.into(),
            "the event is neither 41 (an arrival) nor 53 (a control phase), in hexadecimal",
        ),
        (
            EventFault::CutShort.into(),
            "the input ends within an event",
        ),
    ];
    for (fault, words) in texts {
        let text = fault.to_string(rt.alloc())?;
        assert_eq!(rt; text.as_str(), words);
    }
    let text = FlagFault::NoSuchFlow.to_string(rt.alloc())?;
    assert_eq!(rt; text.as_str(), "the report set has no such flow");
    let text = FlagFault::FlaggedAlready.to_string(rt.alloc())?;
    assert_eq!(rt; text.as_str(), "the flow has flagged already");
    let text = DecisionFault::NotForThisSlot.to_string(rt.alloc())?;
    assert_eq!(rt;
        text.as_str(),
        "the report set is not for this slot of this cell"
    );
    Ok(())
}
