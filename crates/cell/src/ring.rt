ghost use Rattle.std.specs.Prelude.{◌<◌};

use crate::flows::Flows;

/// The flows in a ring, in which lagging flows are found in turn.
#[derive(Drop)]
pub(crate) struct Ring {
    /// The flow that was found last; at first the last flow.
    pointer: u8,
    /// For how many more slots it is found again.
    remainder: u8,
    ghost points: { pointer < 16 },
}

impl Ring {
    ghost use Rattle.std.specs.Prelude.{◌≡◌, ◌≤◌, IfSome};
    ghost use Rattle.cell_rules.specs.Rules.{first_ring, next_around, ring_finds};
    ghost use Rattle.cell_rules.specs.InOrder.{FoundAround};
    ghost use Rattle.cell.specs.FlowsView.{clean_of, rows_of};
    ghost use Rattle.cell.specs.RingView.{ring_held};

    /// The ring of a new cell: it points at the last flow.
    pub(crate) fn new(flow_count: u8) -> Ring
        requires some { 1 ≤ flow_count }
        requires few { flow_count ≤ 16 }
        ensures { ring_held result ≡ first_ring flow_count }
    {
        Ring {
            pointer: flow_count - 1,
            remainder: 0,
        }
    }

    /// The first lagging flow that is able, from the one that follows the pointed flow around to the pointed flow.
    fn following(&self, flows: &Flows<'_>) -> Option<u8>
        ensures found { result ≡ next_around (rows_of flows.now) (clean_of flows.now) self.now.pointer }
        ensures inside { IfSome result (λ flow. flow < 16) }
    {
        let next = self.pointer + 1;
        match flows.first_repayable(next, flows.count()) {
            Some(flow) => Some(flow),
            None => flows.first_repayable(0, next),
        }
    }

    /// Finds the lagging flow that is to send, if one is able, and moves as it does when that flow sends. It finds the
    /// pointed flow while that has slots left, and else the next one, which gets a quarter of its lag.
    pub(crate) fn find(&mut self, flows: &Flows<'_>) -> Option<u8>
        ensures found { result ≡ (ring_finds (rows_of flows.now) (clean_of flows.now) (ring_held self.old)).0 }
        ensures nearest { FoundAround (rows_of flows.now) (clean_of flows.now) (ring_held self.old) result }
        ensures moved { ring_held self.new ≡ (ring_finds (rows_of flows.now) (clean_of flows.now) (ring_held self.old)).1 }
    {
        if self.remainder > 0 && flows.is_repayable(self.pointer) {
            self.remainder -= 1;
            return Some(self.pointer);
        }
        let found = self.following(flows)?;
        self.pointer = found;
        self.remainder = flows.row(found).lag / 4;
        Some(found)
    }
}
