ghost use Rattle.std.specs.Prelude.{◌≡◌};
ghost use Rattle.reference.specs.Calls.Call.{turning};
ghost use Rattle.tag_rule.specs.Rule.{marked};
ghost use Rattle.tag_rule.specs.Tags.{held_after};
ghost use Rattle.tags.specs.View.{clock_of, tags_held};

use crate::Tags;
use crate::parts::{WHOLE, part};
use arrayvec::ArrayVec;
use order::least;
use tag_rule::entry::Entry;
use tag_rule::stamp::Stamp;

impl Tags {
    /// The flow that a turn marks.
    pub(crate) fn pick(&self) -> Option<u8>
        ensures { result ≡ marked (clock_of self.now) }
    {
        let latest = self.time + u32::from(self.lookahead) * WHOLE;
        // The entries of the eligible flows, in the order of the flows. They are made here, and in a loop: a function of
        // their own would hand them over by copy, and `extend` answer with an error for want of room, which there is.
        let mut found = ArrayVec::<Entry, 16>::new();
        for (flow, stamp) in self.flows().iter().enumerate() {
            if stamp.due && stamp.tag <= latest {
                found.push(Entry {
                    finish: stamp.tag + part(stamp.delay_weight),
                    flow: flow as u8,
                });
            }
        }
        // The search and not `min`: it is the one for every kind of entry, also for those whose ties are not equal.
        least(&found).map(|first| found[first].flow)
    }

    /// Charges the flow that a turn marks.
    pub(crate) fn charge(&mut self, flow: u8)
        requires { Some flow ≡ marked (clock_of self.old) }
        ensures { tags_held self.new ≡ held_after (tags_held self.old) turning }
    {
        let stamp = self.stamps[usize::from(flow)];
        let tag = stamp.tag + part(stamp.weight);
        self.put(flow, Stamp { tag, ..stamp });
    }
}
