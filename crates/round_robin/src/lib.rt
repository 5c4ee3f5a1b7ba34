//! Round robin, an error-free reference: one flow after another, each as often in a round as its weight says.

#![tactic(auto)]

ghost use Rattle.std.specs.Prelude.{◌≡◌, ◌<◌, ◌≤◌, length, take};
ghost use Rattle.reference.specs.Flows.{sum};
ghost use Rattle.round_robin_rule.specs.Rule.{KeptBelow, weight_of};

use round_robin_rule::quota::Quota;

mod calls;
mod flows;
mod of;
mod turns;

/// Round robin over the flows of a table.
#[derive(Clone, Copy)]
pub struct RoundRobin {
    // An array of 16 beside its count, with a slice and a question over it, as in Table: these types are Copy, which an
    // ArrayVec is not, and which a struct over [T; 16] with facts cannot derive.
    quotas: [Quota; 16],
    count: u8,
    pointer: u8,
    total: u16,
    ghost sized: { length quotas ≡ 16 },
    ghost some: { 1 ≤ count },
    ghost few: { count ≤ 16 },
    ghost points: { pointer < count },
    ghost kept: { KeptBelow quotas count },
    ghost summed: { total ≡ sum weight_of (take count quotas) },
}
