ghost use Rattle.runner.specs.Parsing.{Parsed};

use crate::event::{ARRIVAL, Event, PHASE};
use fault::EventFault;
use octets::big_endian::BigEndian;

/// What has come of an event that is not whole.
#[derive(Clone, Copy)]
pub(crate) enum Begun {
    /// Nothing.
    Nothing,
    /// The first byte of an arrival.
    Arrival,
    /// And its flow.
    ArrivalFor(u8),
    /// The first byte of a control phase.
    Phase,
    /// And the high byte of its mask.
    PhaseWith(u8),
}

impl Begun {
    /// What has come with a further byte: the event, if that makes it whole, and what has come of the next one.
    pub(crate) fn with(self, byte: u8) -> Result<(Begun, Option<Event>), EventFault>
        ensures { Parsed self byte result }
    {
        let (begun, event) = match (self, byte) {
            (Begun::Nothing, ARRIVAL) => (Begun::Arrival, None),
            (Begun::Nothing, PHASE) => (Begun::Phase, None),
            (Begun::Nothing, _) => return Err(EventFault::Unknown),
            (Begun::Arrival, flow) => (Begun::ArrivalFor(flow), None),
            (Begun::ArrivalFor(flow), packets) => {
                (Begun::Nothing, Some(Event::Arrival { flow, packets }))
            }
            (Begun::Phase, high) => (Begun::PhaseWith(high), None),
            (Begun::PhaseWith(high), low) => {
                let clean = u16::from_bytes([high, low]);
                (Begun::Nothing, Some(Event::Phase { clean }))
            }
        };
        Ok((begun, event))
    }
}
