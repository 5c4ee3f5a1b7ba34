ghost use Rattle.std.specs.Prelude.{◌≡◌};
ghost use Rattle.round_robin_rule.specs.Rule.{quota_of};
ghost use Rattle.round_robin.specs.View.{robin_held};

use crate::RoundRobin;
use round_robin_rule::quota::Quota;

impl RoundRobin {
    /// What is held of the flows, flow 0 first.
    pub(crate) fn flows(&self) -> &[Quota]
        ensures { result.now ≡ (robin_held self.now).quotas }
    {
        &self.quotas[..usize::from(self.count)]
    }

    /// What is held of a flow; none past the last flow.
    pub(crate) fn quota(&self, flow: u8) -> Option<Quota>
        ensures { result ≡ quota_of (robin_held self.now) flow }
    {
        self.flows().get(usize::from(flow)).copied()
    }
}
