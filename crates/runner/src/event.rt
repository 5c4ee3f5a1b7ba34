ghost use Rattle.runner.specs.Parsing.{EventRead};

use fault::EventFault;
use octets::big_endian::BigEndian;

/// The first byte of an arrival.
pub(crate) const ARRIVAL: u8 = 0x41;

/// The first byte of a control phase.
pub(crate) const PHASE: u8 = 0x53;

/// The bytes of an event.
pub(crate) const EVENT_BYTES: usize = 3;

/// An event of a run's input, whole.
#[derive(Clone, Copy)]
pub(crate) enum Event {
    /// Packets arrive.
    Arrival {
        /// The flow that they arrive for; any number.
        flow: u8,
        /// How many.
        packets: u8,
    },
    /// A control phase in which every flow flags, and then its decision.
    Phase {
        /// The flows that flag clean: a bit for each, that of flow 0 the lowest.
        clean: u16,
    },
}

impl Event {
    /// The event that has these bytes.
    pub(crate) fn read(bytes: [u8; EVENT_BYTES]) -> Result<Event, EventFault>
        ensures { EventRead bytes result }
    {
        let [first, second, third] = bytes;
        match first {
            ARRIVAL => Ok(Event::Arrival {
                flow: second,
                packets: third,
            }),
            PHASE => Ok(Event::Phase {
                clean: u16::from_bytes([second, third]),
            }),
            _ => Err(EventFault::Unknown),
        }
    }
}
