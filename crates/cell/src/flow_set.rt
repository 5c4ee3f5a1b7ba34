ghost use Rattle.std.specs.Prelude.{◌≡◌, ◌^◌, ◌-◌, ◌<◌, ◌≤◌};
ghost use Rattle.std.specs.Int.RustNames.{bit_or};
ghost use Rattle.cell_rules.specs.Rules.{has};

/// A set of flows: a bit for each, that of flow 0 the lowest.
#[derive(Clone, Copy, PartialEq, Eq, Debug, Default)]
pub(crate) struct FlowSet {
    pub(crate) bits: u16,
}

impl FlowSet {
    /// The first so many flows.
    pub(crate) fn first(count: u8) -> FlowSet
        requires { count ≤ 16 }
        ensures { result.bits ≡ 2 ^ count - 1 }
    {
        FlowSet {
            bits: ((1_u32 << count) - 1) as u16,
        }
    }

    /// Whether a flow is in the set.
    #[tactic(auto, using(std::proofs::lemmas::Nat::Bits::shr_and_one, crate::proofs::FlowSets::none_from_sixteen))]
    pub(crate) fn contains(self, flow: u8) -> bool
        ensures { result ≡ has self.bits flow }
    {
        flow < 16 && (self.bits >> flow) & 1 == 1
    }

    /// The set with this flow in it.
    pub(crate) fn with(self, flow: u8) -> FlowSet
        requires { flow < 16 }
        ensures { result.bits ≡ bit_or self.bits (2 ^ flow) }
    {
        FlowSet {
            bits: self.bits | (1 << flow),
        }
    }
}
