ghost use Rattle.std.specs.Prelude.{◌<◌};

use order::TotalOrder;

/// An able flow that leads by less than its limit. The smallest lead ÷ limit comes first.
#[derive(Clone, Copy)]
pub(crate) struct Leader {
    /// The flow's number.
    pub(crate) flow: u8,
    /// Its lead.
    pub(crate) lead: u8,
    /// Its lead limit.
    pub(crate) limit: u8,
    ghost positive: { 0 < limit },
}

/// What stands in a list of leaders where there is none yet.
impl Default for Leader {
    fn default() -> Leader {
        Leader {
            flow: 0,
            lead: 0,
            limit: 1,
        }
    }
}

impl TotalOrder for Leader {
    ghost use Rattle.cell.specs.Leaders.{sooner};
    ghost use Rattle.cell.specs.Ranks.{sooner_ranks};

    ghost before = { sooner };

    ghost ranks = { sooner_ranks };

    // By hand, and no derive: fractions that tie need not be equal.
    fn precedes(&self, other: &Leader) -> bool {
        u16::from(self.lead) * u16::from(other.limit)
            < u16::from(other.lead) * u16::from(self.limit)
    }
}
