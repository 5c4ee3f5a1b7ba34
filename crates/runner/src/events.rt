ghost use Rattle.std.specs.Prelude.{◌≡◌, ◌+◌, ◌≤◌, ◌++◌, length};
ghost use Rattle.record.specs.Layout.{record_bytes};

use crate::begun::Begun;
use crate::event::Event;
use arrayvec::ArrayVec;
use cell::Cell;
use fault::{CreationFault, OpeningFault, RunFault};
use record::Record;
use table::Table;
use table_reference::TableReference;

/// The bytes of a record.
const RECORD_BYTES: usize = 12;

/// The bytes of records that are still to be written, of 64 records at most.
pub(crate) type Records = ArrayVec<u8, 768>;

/// Adds the bytes of a record, for which there is room.
pub(crate) fn add_record(records: &mut Records, latest: &Record)
    requires { length records.old.items + 12 ≤ 768 }
    ensures { records.new.items ≡ records.old.items ++ record_bytes latest.now }
{
    records.try_extend_from_slice(&latest.bytes()).unwrap();
}

/// The events of a run: the cell that they are for, and what has come of the one that is not whole.
#[derive(Drop)]
pub(crate) struct Events {
    cell: Cell<TableReference>,
    begun: Begun,
}

impl Events {
    ghost use Rattle.runner.specs.EventsView.{Begins, FrontTaken, Gives, PhaseTaken, Taken, events_to_come};
    ghost use Rattle.std.specs.Prelude.{◌≡◌, ◌<◌, ◌≤◌, true, [], ◌∷◌, ◌++◌, IfOk, length};
    ghost use Rattle.runner.specs.Parsing.{none_begun};

    /// Before the first event: the cell of a table, over the reference of the table's kind.
    pub(crate) fn of(table: &[u8]) -> Result<Events, CreationFault>
        ensures { Begins table.now result }
    {
        let reference = TableReference::of(&Table::read(table)?);
        match Cell::create(table, reference) {
            Ok(cell) => Ok(Events {
                cell,
                begun: Begun::Nothing,
            }),
            Err(refused) => Err(refused.fault),
        }
    }

    /// Flags every flow, and decides the slot.
    #[inline(always)]
    fn decide(&mut self, clean: u16) -> Result<Record, OpeningFault>
        ensures { PhaseTaken self.old clean self.new result }
    {
        let mut reports = self.cell.open_phase()?;
        reports.flag_rest(clean);
        // The set was opened for this slot, so it is not refused.
        Ok(self.cell.decide(reports).unwrap())
    }

    /// Applies an event: the record of the slot, if it decides one.
    #[inline(always)]
    fn take(&mut self, event: Event) -> Result<Option<Record>, RunFault>
        ensures { Taken self.old event self.new result }
    {
        match event {
            Event::Arrival { flow, packets } => {
                self.cell.arrive(flow, packets.into())?;
                Ok(None)
            }
            Event::Phase { clean } => Ok(Some(self.decide(clean)?)),
        }
    }

    /// Takes a byte: the record of a slot, if the byte makes a control phase whole.
    // Never inlined, so that `take` has one caller on the way of events that come whole, which are nearly all.
    #[inline(never)]
    pub(crate) fn push(&mut self, byte: u8) -> Result<Option<Record>, RunFault>
        ensures { Gives (λ rest. events_to_come self.old (byte ∷ rest)) (events_to_come self.new) result }
    {
        let (begun, event) = self.begun.with(byte)?;
        self.begun = begun;
        match event {
            None => Ok(None),
            Some(event) => self.take(event),
        }
    }

    /// Takes the bytes of a whole event, where the last one is whole: the record of a slot, if it is a control phase.
    fn take_whole(&mut self, bytes: [u8; 3]) -> Result<Option<Record>, RunFault>
        requires between { none_begun self.old.begun ≡ true }
        ensures gives { Gives (λ rest. events_to_come self.old (bytes ++ rest)) (events_to_come self.new) result }
        ensures between { IfOk result (λ _. none_begun self.new.begun ≡ true) }
    {
        let event = Event::read(bytes)?;
        self.take(event)
    }

    /// Applies the whole events at the front of the bytes, where the last one is whole, until one
    /// is refused or there is no room for one more record. Adds their records' bytes; returns the
    /// refusal, if there is one, and the bytes left.
    // Never inlined: its callers hold more, and the loop would be slower among their locals.
    #[inline(never)]
    pub(crate) fn take_front<'a>(
        &mut self,
        bytes: &'a [u8],
        records: &mut Records,
    ) -> (Result<(), RunFault>, &'a [u8])
        requires between { none_begun self.old.begun ≡ true }
        requires empty { records.old.items ≡ [] }
        ensures taken { FrontTaken self.old bytes.now records.new.items self.new result.1.now result.0 }
        ensures no_more { length result.1.now ≤ length bytes.now }
        ensures moves_on { 3 ≤ length bytes.now → length result.1.now < length bytes.now }
    {
        let mut rest = bytes;
        while records.remaining_capacity() >= RECORD_BYTES
            && let [first, a, b, behind @ ..] = rest
        {
            rest = behind;
            match self.take_whole([*first, *a, *b]) {
                Ok(None) => {}
                Ok(Some(record)) => add_record(records, &record),
                Err(fault) => return (Err(fault), rest),
            }
        }
        (Ok(()), rest)
    }

    /// Whether the last event is whole.
    pub(crate) fn between(&self) -> bool
        ensures { result ≡ none_begun self.now.begun }
    {
        matches!(self.begun, Begun::Nothing)
    }
}
