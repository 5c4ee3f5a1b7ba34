ghost use Rattle.std.specs.Prelude.{◌≡◌, ◌-◌, ◌<◌, ◌≤◌, false, IfSome};
ghost use Rattle.std.specs.List.{find, range_with_len};
ghost use Rattle.reference.specs.Flows.{around, some};
ghost use Rattle.round_robin_rule.specs.Rule.{pointing_at, quota_at, ready, renewed};
ghost use Rattle.round_robin.specs.View.{robin_held};

use crate::RoundRobin;

impl RoundRobin {
    /// Begins a new round if flows are due, none of which is ready.
    fn renew(&mut self)
        requires { some ready (robin_held self.old).quotas ≡ false }
        ensures { robin_held self.new ≡ pointing_at self.old.pointer (renewed (robin_held self.old).quotas) }
    {
        if self.flows().iter().any(|quota| quota.due) {
            for quota in &mut self.quotas {
                quota.used = 0;
            }
        }
    }

    /// The first flow that is ready, of those from one number on and below another.
    fn first_ready(&self, from: u8, end: u8) -> Option<u8>
        requires { end ≤ self.now.count }
        ensures { result ≡ find (λ flow. ready (quota_at (robin_held self.now).quotas flow)) (range_with_len from (end - from)) }
    {
        // A loop and no `find`, whose closure could not know that the number it is given is a flow's.
        for flow in from..end {
            if self.quotas[usize::from(flow)].is_ready() {
                return Some(flow);
            }
        }
        None
    }

    /// The first flow that is ready, looking upward from the pointer and around.
    fn next_ready(&self) -> Option<u8>
        ensures first { result ≡ around ready self.now.pointer (robin_held self.now).quotas }
        ensures inside { IfSome result (λ flow. flow < self.now.count) }
    {
        // Two searches and no chain of two ranges, which would ask at each flow in which of them it is.
        self.first_ready(self.pointer, self.count)
            .or_else(|| self.first_ready(0, self.pointer))
    }

    /// The flow that a turn marks, after the beginning of a round if there is one.
    pub(crate) fn choose(&mut self) -> Option<u8>
        ensures left { robin_held self.new ≡ pointing_at self.old.pointer (renewed (robin_held self.old).quotas) }
        ensures first { result ≡ around ready self.new.pointer (robin_held self.new).quotas }
        ensures inside { IfSome result (λ flow. flow < self.new.count) }
    {
        // Where a flow is ready, no round begins.
        if let Some(flow) = self.next_ready() {
            return Some(flow);
        }
        self.renew();
        self.next_ready()
    }
}
