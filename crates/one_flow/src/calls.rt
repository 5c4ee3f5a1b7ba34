ghost use Rattle.std.specs.Prelude.{◌≡◌, false};
ghost use Rattle.one_flow.specs.OneFlow.{one_flow};
ghost use Rattle.one_flow.specs.View.{one_flow_held};
ghost use Rattle.one_flow.specs.Laws.{one_flow_lawful};

use crate::OneFlow;
use reference::Reference;

impl OneFlow {
    /// A reference whose flow is not due.
    pub fn new() -> OneFlow
        ensures { one_flow_held result ≡ false }
    {
        OneFlow::default()
    }
}

impl Reference for OneFlow {
    ghost meaning = { one_flow };

    ghost held = { one_flow_held };

    ghost lawful = { one_flow_lawful };

    ghost sound = { λ _. tt };

    fn flow_count(&self) -> u8 {
        1
    }

    fn weight(&self, flow: u8) -> Option<u32> {
        (flow == 0).then_some(1)
    }

    fn allowance(&self, flow: u8) -> Option<u32> {
        (flow == 0).then_some(0)
    }

    fn total_weight(&self) -> u32 {
        1
    }

    fn is_due(&self, flow: u8) -> bool {
        flow == 0 && self.due
    }

    fn enter(&mut self, flow: u8) {
        if flow == 0 {
            self.due = true;
        }
    }

    fn leave(&mut self, flow: u8) {
        if flow == 0 {
            self.due = false;
        }
    }

    fn turn(&mut self) -> Option<u8> {
        self.due.then_some(0)
    }
}
