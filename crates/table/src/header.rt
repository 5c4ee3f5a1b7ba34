ghost use Rattle.std.specs.Prelude.{◌≡◌};
ghost use Rattle.table.specs.Lines.{lookahead_fits};
ghost use Rattle.table.specs.Layers.{FrameChecked, HeaderRead};

use crate::layout::{HEADER_BYTES, LENGTH_BYTES, LINE_BYTES, VERSION};
use crate::line::Kind;
use fault::{FrameFault, HeaderFault};
use octets::big_endian::BigEndian;
use octets::range::one_to_sixteen;

/// What stands in a table between its version and its lines.
#[derive(Clone, Copy)]
pub(crate) struct Header {
    pub(crate) kind: Kind,
    pub(crate) lookahead: u8,
    pub(crate) flow_count: u8,
}

/// Whether a reference of this kind looks ahead so far.
fn lookahead_fits(kind: Kind, lookahead: u8) -> bool
    ensures { result ≡ lookahead_fits kind lookahead }
{
    match kind {
        Kind::RoundRobin => lookahead == 0,
        Kind::Tags => lookahead <= 16,
    }
}

/// Checks length and version.
fn check_frame(bytes: &[u8]) -> Result<(), FrameFault>
    ensures { FrameChecked bytes.now result }
{
    let [high, low, version, _, _, _, ..] = *bytes else {
        return Err(FrameFault::Length);
    };
    if bytes.len() != LENGTH_BYTES + usize::from(u16::from_bytes([high, low])) {
        return Err(FrameFault::Length);
    }
    if version != VERSION {
        return Err(FrameFault::Version);
    }
    Ok(())
}

impl Header {
    /// Reads what stands before the lines, and checks that the length is that of so many lines.
    pub(crate) fn read(bytes: &[u8]) -> Result<Header, HeaderFault>
        ensures { HeaderRead bytes.now result }
    {
        check_frame(bytes)?;
        let kind = Kind::try_from(bytes[3])?;
        let lookahead = bytes[4];
        if !lookahead_fits(kind, lookahead) {
            return Err(HeaderFault::Lookahead);
        }
        let flow_count = bytes[5];
        if !one_to_sixteen(flow_count)
            || bytes.len() != HEADER_BYTES + LINE_BYTES * usize::from(flow_count)
        {
            return Err(HeaderFault::FlowCount);
        }
        Ok(Header {
            kind,
            lookahead,
            flow_count,
        })
    }
}
