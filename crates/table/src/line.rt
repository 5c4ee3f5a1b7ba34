//! What a table says of one flow, and the kinds of reference that a table asks for.

ghost use Rattle.std.specs.Prelude.{◌≡◌, ok_or};
ghost use Rattle.table.specs.Lines.{kind_number, kind_numbered, delay_weight_fits, line_bytes};
ghost use Rattle.table.specs.Layers.{LineChecked};
ghost use Rattle.fault.specs.declared.HeaderFault.TheVariants.{Kind as UnknownKind};

use fault::{HeaderFault, LineFault};
use octets::range::one_to_sixteen;
use std::fmt;

/// The reference that a table asks for, with its number in a table.
#[derive(Clone, Copy, PartialEq, Eq, Debug)]
pub enum Kind {
    /// One flow after another, each as often in a round as its weight says.
    RoundRobin = 1,
    /// Of the due flows that are not too far ahead of their share, the one that would finish first.
    Tags = 2,
}

/// The number that stands for a kind in a table.
impl From<Kind> for u8 {
    ghost from_gives = { λ kind number. number ≡ kind_number kind };

    fn from(kind: Kind) -> u8 {
        kind as u8
    }
}

/// The kind that a number stands for.
// The numbers once more: a match on them is plainer than one on the casts of the cases.
impl TryFrom<u8> for Kind {
    type Error = HeaderFault;

    ghost try_from_gives = { λ number result. result ≡ ok_or (kind_numbered number) UnknownKind };

    fn try_from(number: u8) -> Result<Kind, HeaderFault> {
        match number {
            1 => Ok(Kind::RoundRobin),
            2 => Ok(Kind::Tags),
            _ => Err(HeaderFault::Kind),
        }
    }
}

/// The name of a kind, as it is shown.
impl fmt::Display for Kind {
    fn fmt<W: fmt::Write>(&self, f: &mut fmt::Formatter<W>) -> fmt::Result {
        f.write_str(match self {
            Kind::RoundRobin => "round robin",
            Kind::Tags => "tags",
        })
    }
}

/// What a table says of one flow.
#[derive(Clone, Copy, PartialEq, Eq, Debug, Default)]
pub struct Line {
    /// 1 to 16 in a table. The flow's share is this over the sum of all weights.
    pub weight: u8,
    /// 1 to 16 in a table for tags; 0 in a table for round robin, which has none.
    pub delay_weight: u8,
    /// How many turns the flow may lag behind; any number.
    pub lag_limit: u8,
    /// How many turns the flow may lead; any number.
    pub lead_limit: u8,
}

/// The line that four bytes stand for; any four bytes do.
impl From<[u8; 4]> for Line {
    ghost from_gives = { λ bytes line. line_bytes line ≡ bytes };

    fn from(bytes: [u8; 4]) -> Line {
        let [weight, delay_weight, lag_limit, lead_limit] = bytes;
        Line {
            weight,
            delay_weight,
            lag_limit,
            lead_limit,
        }
    }
}

/// The four bytes of a line in a table, in the order of its fields.
impl From<Line> for [u8; 4] {
    ghost from_gives = { λ line bytes. bytes ≡ line_bytes line };

    fn from(line: Line) -> [u8; 4] {
        [
            line.weight,
            line.delay_weight,
            line.lag_limit,
            line.lead_limit,
        ]
    }
}

/// Whether a reference of this kind has such a delay weight.
fn delay_weight_fits(kind: Kind, delay_weight: u8) -> bool
    ensures { result ≡ delay_weight_fits kind delay_weight }
{
    match kind {
        Kind::RoundRobin => delay_weight == 0,
        Kind::Tags => one_to_sixteen(delay_weight),
    }
}

impl Line {
    /// Checks that this line of a flow keeps the rules of a table of this kind.
    pub(crate) fn check(self, kind: Kind, flow: u8) -> Result<(), LineFault>
        ensures { LineChecked kind flow self result }
    {
        if !one_to_sixteen(self.weight) {
            return Err(LineFault::Weight(flow));
        }
        if !delay_weight_fits(kind, self.delay_weight) {
            return Err(LineFault::DelayWeight(flow));
        }
        Ok(())
    }
}
