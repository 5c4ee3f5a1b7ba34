ghost use Rattle.std.specs.Prelude.{◌+◌, ◌<◌, length};
ghost use Rattle.octets.specs.BigEndian.{told_length};

use crate::stage::Stage;
use arrayvec::ArrayVec;
use fault::CreationFault;

/// The bytes of the longest table that a flow count makes: that of sixteen flows.
pub(crate) const MOST_BYTES: usize = 70;

/// The bytes of a table that has not come whole: fewer than its length says, and fewer than a
/// header of a table that is longer than any flow count makes it.
#[derive(Drop)]
pub(crate) struct PartialTable {
    pub(crate) bytes: ArrayVec<u8, MOST_BYTES>,
    ghost cut: { length bytes.items < told_length bytes.items + 2 },
    ghost short: { 68 < told_length bytes.items → length bytes.items < 6 },
}

/// Before the first byte.
impl Default for PartialTable {
    ghost use Rattle.std.specs.Prelude.{◌≡◌, []};

    ghost is_default = { λ t. t.bytes.items ≡ [] };

    fn default() -> PartialTable {
        PartialTable {
            bytes: ArrayVec::new(),
        }
    }
}

impl PartialTable {
    ghost use Rattle.std.specs.Prelude.{[], ◌∷◌, ◌++◌, ◌≡◌, IfErr, IfOk};
    ghost use Rattle.runner.specs.Output.{nothing_more};
    ghost use Rattle.runner.specs.ToCome.{IsLastByte, StageBehind, stage_to_come};

    /// The stage after one more byte.
    pub(crate) fn with(self, byte: u8) -> Result<Stage, CreationFault>
        ensures behind { StageBehind (self.bytes.items ++ byte ∷ []) result }
        ensures whole { IfErr result (λ _. IsLastByte self.bytes.items byte) }
        ensures ready { IfOk result (λ stage.
            IsLastByte self.bytes.items byte → stage_to_come stage [] ≡ nothing_more) }
    {
        let mut bytes = self.bytes;
        bytes.push(byte);
        Stage::behind(bytes)
    }
}
