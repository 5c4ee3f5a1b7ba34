ghost use Rattle.std.specs.Prelude.{◌≡◌};
ghost use Rattle.record.specs.Pairs.{flow_fits, sender_fits, flows_fit, pair_fits};
ghost use Rattle.record.specs.Refusals.{Made};

use crate::Record;
use crate::taking::Charge::{self, Forfeited, LagUp, LeadDown, Nothing};
use crate::taking::Taking::{self, Free, Idle, LagRepaid, LeadCharged, Own};
use fault::RecordFault;
use octets::range::one_to_sixteen;

/// Slots are numbered below this.
const SLOTS: u32 = 1_000_000_000;

/// Whether the flow, where one is named, is one of the cell's.
fn flow_fits(flow_count: u8, flow: Option<u8>) -> bool
    ensures { result ≡ flow_fits flow_count flow }
{
    flow.is_none_or(|flow| flow < flow_count)
}

// Marked flow, taking and charge are passed to each rule by themselves: a struct of them would be the record, before
// its facts hold.
/// Whether the sender is the marked flow where it has to be, and another one where it has not.
fn sender_fits(marked: Option<u8>, taking: Taking) -> bool
    ensures { result ≡ sender_fits marked taking }
{
    match taking {
        Idle => true,
        Own(flow) => marked == Some(flow),
        LagRepaid(flow) | LeadCharged(flow) | Free(flow) => marked != Some(flow),
    }
}

/// Whether the marked flow and the sender are such as may stand in one record.
fn flows_fit(flow_count: u8, marked: Option<u8>, taking: Taking) -> bool
    ensures { result ≡ flows_fit flow_count marked taking }
{
    flow_fits(flow_count, marked)
        && flow_fits(flow_count, taking.sender())
        && sender_fits(marked, taking)
}

/// Whether taking and charge go together, in a slot that marks a flow or none.
fn pair_fits(marked: Option<u8>, taking: Taking, charge: Charge) -> bool
    ensures { result ≡ pair_fits marked taking charge }
{
    matches!(
        (marked, taking, charge),
        (None, Idle | LagRepaid(_) | Free(_), Nothing)
            | (Some(_), Idle | Free(_), LeadDown | Forfeited)
            | (Some(_), Own(_), Nothing)
            | (Some(_), LagRepaid(_), LeadDown | LagUp | Forfeited)
            | (Some(_), LeadCharged(_), LeadDown | LagUp)
    )
}

impl Record {
    /// The record with these parts, if they go together.
    pub fn new(
        marked: Option<u8>,
        taking: Taking,
        charge: Charge,
        flow_count: u8,
        slot: u32,
    ) -> Result<Record, RecordFault>
        ensures { Made marked taking charge flow_count slot result }
    {
        let fits = one_to_sixteen(flow_count)
            && slot < SLOTS
            && flows_fit(flow_count, marked, taking)
            && pair_fits(marked, taking, charge);
        if !fits {
            return Err(RecordFault::Field);
        }
        Ok(Record {
            marked,
            taking,
            charge,
            flow_count,
            slot,
        })
    }
}
