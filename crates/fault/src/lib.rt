//! Every fault, with its number, and for a fault of a table the byte and the layer.

#![tactic(auto)]

ghost use Rattle.std.specs.Prelude.{◌≡◌};
ghost use Rattle.fault.specs.Faults.{
  arrival_number,
  creation_told,
  decision_number,
  event_number,
  flag_number,
  frame_told,
  header_told,
  line_told,
  opening_number,
  record_number,
  refusal_of_table,
  run_number,
  write_number,
};
ghost use Rattle.fault.specs.declared.CreationFault.TheVariants.{Table};
ghost use Rattle.fault.specs.declared.HeaderFault.TheVariants.{Frame};
ghost use Rattle.fault.specs.declared.LineFault.TheVariants.{Header};
ghost use Rattle.fault.specs.declared.RunFault.TheVariants.{Arrival, Creation, Event, Opening};

use std::fmt;
use thiserror::Error;

/// The layer of a table that a fault lies in.
#[derive(Clone, Copy, PartialEq, Eq, Debug)]
pub enum Layer {
    /// Length and version.
    Frame,
    /// Kind, lookahead and flow count.
    Header,
    /// The lines of the flows.
    Line,
}

impl fmt::Display for Layer {
    fn fmt<W: fmt::Write>(&self, f: &mut fmt::Formatter<W>) -> fmt::Result {
        f.write_str(match self {
            Layer::Frame => "frame",
            Layer::Header => "header",
            Layer::Line => "line",
        })
    }
}

/// The external form of a table's fault: the number of the refusal, the first wrong byte (from 0, the
/// length among them) and the layer.
#[derive(Clone, Copy, PartialEq, Eq, Debug)]
pub struct Refusal {
    /// The number of the refusal.
    pub number: u8,
    /// The first wrong byte, from 0.
    pub byte: u16,
    /// The layer that the fault lies in.
    pub layer: Layer,
}

impl fmt::Display for Refusal {
    fn fmt<W: fmt::Write>(&self, f: &mut fmt::Formatter<W>) -> fmt::Result {
        let Refusal {
            number,
            byte,
            layer,
        } = *self;
        write!(f, "number {number}, byte {byte}, {layer}")
    }
}

/// What is wrong with the frame of a table.
#[derive(Clone, Copy, PartialEq, Eq, Debug, Error)]
pub enum FrameFault {
    /// Fewer than six bytes, or a length that disagrees with them.
    #[error("there are fewer than six bytes, or not as many as the length tells")]
    Length,
    /// A version other than 1.
    #[error("the version is not 1")]
    Version,
}

/// What is wrong with a table up to its header.
#[derive(Clone, Copy, PartialEq, Eq, Debug, Error)]
pub enum HeaderFault {
    /// A fault of the frame.
    #[error(transparent)]
    Frame(FrameFault),
    /// An unknown kind.
    #[error("the kind is neither 1 (round robin) nor 2 (tags)")]
    Kind,
    /// A lookahead that the kind does not have.
    #[error("the lookahead is not 0 to 16 (tags) or not 0 (round robin)")]
    Lookahead,
    /// A flow count that is not 1 to 16, or not the one that the length is for.
    #[error("the flow count is not 1 to 16, or the length is not that of so many lines")]
    FlowCount,
}

/// What is wrong with a table, in any part of it.
#[derive(Clone, Copy, PartialEq, Eq, Debug, Error)]
pub enum LineFault {
    /// A fault of the frame or the header.
    #[error(transparent)]
    Header(HeaderFault),
    /// The weight of this flow.
    #[error("the weight of flow {0} is not 1 to 16")]
    Weight(u8),
    /// The delay weight of this flow.
    #[error("the delay weight of flow {0} is not 1 to 16 (tags) or not 0 (round robin)")]
    DelayWeight(u8),
}

// Written out, these two: thiserror's `#[from]` has no contract, and clauses name the fault that `?` makes.
impl From<FrameFault> for HeaderFault {
    ghost from_gives = { λ e r. r ≡ Frame e };

    fn from(e: FrameFault) -> HeaderFault {
        HeaderFault::Frame(e)
    }
}

impl From<HeaderFault> for LineFault {
    ghost from_gives = { λ e r. r ≡ Header e };

    fn from(e: HeaderFault) -> LineFault {
        LineFault::Header(e)
    }
}

// A method rather than `From`: a refusal describes a fault, and is not the fault in another type.
impl FrameFault {
    /// Number, byte and layer.
    pub fn refusal(self) -> Refusal
        ensures { result ≡ frame_told self }
    {
        let (number, byte) = match self {
            FrameFault::Length => (1, 0),
            FrameFault::Version => (2, 2),
        };
        Refusal {
            number,
            byte,
            layer: Layer::Frame,
        }
    }
}

impl HeaderFault {
    /// Number, byte and layer.
    pub fn refusal(self) -> Refusal
        ensures { result ≡ header_told self }
    {
        let (number, byte) = match self {
            HeaderFault::Frame(fault) => return fault.refusal(),
            HeaderFault::Kind => (3, 3),
            HeaderFault::Lookahead => (3, 4),
            HeaderFault::FlowCount => (4, 5),
        };
        Refusal {
            number,
            byte,
            layer: Layer::Header,
        }
    }
}

impl LineFault {
    /// Number, byte and layer.
    pub fn refusal(self) -> Refusal
        ensures { result ≡ line_told self }
    {
        let byte = match self {
            LineFault::Header(fault) => return fault.refusal(),
            LineFault::Weight(flow) => 6 + 4 * u16::from(flow),
            LineFault::DelayWeight(flow) => 7 + 4 * u16::from(flow),
        };
        Refusal {
            number: 5,
            byte,
            layer: Layer::Line,
        }
    }
}

/// Why no cell was created.
#[derive(Clone, Copy, PartialEq, Eq, Debug, Error)]
pub enum CreationFault {
    /// A fault of the table.
    #[error(transparent)]
    Table(LineFault),
    /// A table of another number of flows than the reference has.
    #[error("the flow count is not that of the reference")]
    FlowCount,
}

impl From<LineFault> for CreationFault {
    ghost from_gives = { λ e r. r ≡ Table e };

    fn from(e: LineFault) -> CreationFault {
        CreationFault::Table(e)
    }
}

impl CreationFault {
    /// Number, byte and layer.
    pub fn refusal(self) -> Refusal
        ensures { result ≡ creation_told self }
    {
        match self {
            CreationFault::Table(fault) => fault.refusal(),
            CreationFault::FlowCount => HeaderFault::FlowCount.refusal(),
        }
    }
}

/// What is wrong with a record.
#[derive(Clone, Copy, PartialEq, Eq, Debug, Error)]
pub enum RecordFault {
    /// Not twelve bytes, or a length other than 10.
    #[error("there are not twelve bytes, or the length is not 10")]
    Length,
    /// A version other than 1.
    #[error("the version is not 1")]
    Version,
    /// Any other field, or fields that do not go together.
    #[error("a field is out of its range, or fields do not go together")]
    Field,
}

impl RecordFault {
    /// The number of the refusal, as docs/REFUSALS.md lists it.
    pub fn number(self) -> u8
        ensures { result ≡ record_number self }
    {
        match self {
            RecordFault::Length => 13,
            RecordFault::Version => 14,
            RecordFault::Field => 15,
        }
    }
}

/// Why nothing was written.
#[derive(Clone, Copy, PartialEq, Eq, Debug, Error)]
pub enum WriteFault {
    /// Too few bytes from the place on, or a place past the end.
    #[error("there are too few bytes from the place on, or it lies past the end")]
    NoRoom,
}

impl WriteFault {
    /// The number of the refusal, as docs/REFUSALS.md lists it.
    pub fn number(self) -> u8
        ensures { result ≡ write_number self }
    {
        match self {
            WriteFault::NoRoom => 12,
        }
    }
}

/// Why no packets arrived.
#[derive(Clone, Copy, PartialEq, Eq, Debug, Error)]
pub enum ArrivalFault {
    /// A flow past the last of the cell.
    #[error("the cell has no such flow")]
    NoSuchFlow,
    /// More packets than can arrive for one flow.
    #[error("more than 1,000,000,000 packets would have arrived for the flow")]
    TooMany,
}

impl ArrivalFault {
    /// The number of the refusal, as docs/REFUSALS.md lists it.
    pub fn number(self) -> u8
        ensures { result ≡ arrival_number self }
    {
        match self {
            ArrivalFault::NoSuchFlow => 6,
            ArrivalFault::TooMany => 7,
        }
    }
}

/// Why no control phase was opened.
#[derive(Clone, Copy, PartialEq, Eq, Debug, Error)]
pub enum OpeningFault {
    /// The cell has decided all the slots that it ever decides.
    #[error("the cell has decided 1,000,000,000 slots")]
    AllDecided,
}

impl OpeningFault {
    /// The number of the refusal, as docs/REFUSALS.md lists it.
    pub fn number(self) -> u8
        ensures { result ≡ opening_number self }
    {
        match self {
            OpeningFault::AllDecided => 8,
        }
    }
}

/// Why a flow did not flag.
#[derive(Clone, Copy, PartialEq, Eq, Debug, Error)]
pub enum FlagFault {
    /// A flow past the last that the set is for.
    #[error("the report set has no such flow")]
    NoSuchFlow,
    /// A second flag of one flow.
    #[error("the flow has flagged already")]
    FlaggedAlready,
}

impl FlagFault {
    /// The number of the refusal, as docs/REFUSALS.md lists it.
    pub fn number(self) -> u8
        ensures { result ≡ flag_number self }
    {
        match self {
            FlagFault::NoSuchFlow => 9,
            FlagFault::FlaggedAlready => 10,
        }
    }
}

/// Why no slot was decided.
#[derive(Clone, Copy, PartialEq, Eq, Debug, Error)]
pub enum DecisionFault {
    /// A report set for another slot, or for another number of flows, than the cell's.
    #[error("the report set is not for this slot of this cell")]
    NotForThisSlot,
}

impl DecisionFault {
    /// The number of the refusal, as docs/REFUSALS.md lists it.
    pub fn number(self) -> u8
        ensures { result ≡ decision_number self }
    {
        match self {
            DecisionFault::NotForThisSlot => 11,
        }
    }
}

/// What is wrong with an event of a run's input.
#[derive(Clone, Copy, PartialEq, Eq, Debug, Error)]
pub enum EventFault {
    /// An event that begins with no known byte.
    #[error("the event is neither 41 (an arrival) nor 53 (a control phase), in hexadecimal")]
    Unknown,
    /// An input that ends within an event.
    #[error("the input ends within an event")]
    CutShort,
}

impl EventFault {
    /// The number of the refusal, as docs/REFUSALS.md lists it.
    pub fn number(self) -> u8
        ensures { result ≡ event_number self }
    {
        match self {
            EventFault::Unknown | EventFault::CutShort => 16,
        }
    }
}

/// Why a run stopped before the end of its input.
#[derive(Clone, Copy, PartialEq, Eq, Debug, Error)]
pub enum RunFault {
    /// No cell was created.
    #[error(transparent)]
    Creation(CreationFault),
    /// Packets did not arrive.
    #[error(transparent)]
    Arrival(ArrivalFault),
    /// A control phase was not opened.
    #[error(transparent)]
    Opening(OpeningFault),
    /// An event is none, or is cut short.
    #[error(transparent)]
    Event(EventFault),
}

impl From<CreationFault> for RunFault {
    ghost from_gives = { λ e r. r ≡ Creation e };

    fn from(e: CreationFault) -> RunFault {
        RunFault::Creation(e)
    }
}

impl From<ArrivalFault> for RunFault {
    ghost from_gives = { λ e r. r ≡ Arrival e };

    fn from(e: ArrivalFault) -> RunFault {
        RunFault::Arrival(e)
    }
}

impl From<OpeningFault> for RunFault {
    ghost from_gives = { λ e r. r ≡ Opening e };

    fn from(e: OpeningFault) -> RunFault {
        RunFault::Opening(e)
    }
}

impl From<EventFault> for RunFault {
    ghost from_gives = { λ e r. r ≡ Event e };

    fn from(e: EventFault) -> RunFault {
        RunFault::Event(e)
    }
}

impl RunFault {
    /// The number of the refusal, as docs/REFUSALS.md lists it.
    pub fn number(self) -> u8
        ensures { result ≡ run_number self }
    {
        match self {
            RunFault::Creation(fault) => fault.refusal().number,
            RunFault::Arrival(fault) => fault.number(),
            RunFault::Opening(fault) => fault.number(),
            RunFault::Event(fault) => fault.number(),
        }
    }

    /// Number, byte and layer of a refused table; none for a refusal of anything else, which has a number
    /// alone.
    pub fn refusal_of_table(self) -> Option<Refusal>
        ensures { result ≡ refusal_of_table self }
    {
        match self {
            RunFault::Creation(fault) => Some(fault.refusal()),
            RunFault::Arrival(_) | RunFault::Opening(_) | RunFault::Event(_) => None,
        }
    }
}
