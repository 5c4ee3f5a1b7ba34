ghost use Rattle.std.specs.Prelude.{◌≡◌, Ok};
ghost use Rattle.record.specs.Layout.{flow_named, record_bytes};
ghost use Rattle.record.specs.Refusals.{RecordRead};

use crate::Record;
use crate::layout::{LENGTH, NO_FLOW, VERSION};
use crate::taking::{Charge, Taking};
use fault::RecordFault;
use octets::big_endian::BigEndian;

/// The flow that a byte names; a match says it as plainly as any method of `Option`.
fn flow_named(byte: u8) -> Option<u8>
    ensures { result ≡ flow_named byte }
{
    match byte {
        NO_FLOW => None,
        flow => Some(flow),
    }
}

/// The record that has these bytes.
// Apart from `read`: the second promise there follows from the first, whichever branch is taken here.
fn decoded(bytes: &[u8]) -> Result<Record, RecordFault>
    ensures { RecordRead bytes.now result }
{
    let [
        high,
        low,
        version,
        marked,
        sender,
        taking,
        charge,
        flow_count,
        a,
        b,
        c,
        d,
    ] = *bytes
    else {
        return Err(RecordFault::Length);
    };
    if u16::from_bytes([high, low]) != LENGTH {
        return Err(RecordFault::Length);
    }
    if version != VERSION {
        return Err(RecordFault::Version);
    }
    let taking = Taking::try_from((taking, flow_named(sender)))?;
    let charge = Charge::try_from(charge)?;
    let slot = u32::from_bytes([a, b, c, d]);
    Record::new(flow_named(marked), taking, charge, flow_count, slot)
}

impl Record {
    /// Reads a record. What is not the bytes of a record is refused.
    pub fn read(bytes: &[u8]) -> Result<Record, RecordFault>
        ensures exact { RecordRead bytes.now result }
        ensures undoes_writing { (s : Record) → record_bytes s ≡ bytes.now → result ≡ Ok s }
    {
        decoded(bytes)
    }
}
