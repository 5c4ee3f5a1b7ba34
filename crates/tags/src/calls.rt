ghost use Rattle.std.specs.Prelude.{◌≡◌, max};
ghost use Rattle.tag_rule.specs.Tags.{held_after, switching, tags};
ghost use Rattle.tags.specs.View.{tags_held};
ghost use Rattle.tag_rule.proofs.Laws.{tags_lawful};
ghost use Rattle.tags.specs.Held.{held_sound};

use crate::Tags;
use reference::Reference;
use tag_rule::stamp::Stamp;

/// A start tag, lifted to virtual time if it is below it.
fn lifted(tag: u32, time: u32) -> u32
    ensures { result ≡ max tag time }
{
    tag.max(time)
}

impl Tags {
    /// Makes a flow due, or not due. The start tag of one that enters is lifted to virtual time, if it is below it.
    fn switch(&mut self, flow: u8, due: bool)
        ensures { tags_held self.new ≡ held_after (tags_held self.old) (switching due flow) }
    {
        if flow < self.count {
            let stamp = self.stamps[usize::from(flow)];
            let tag = if due {
                lifted(stamp.tag, self.time)
            } else {
                stamp.tag
            };
            self.put(flow, Stamp { tag, due, ..stamp });
        }
    }
}

impl Reference for Tags {
    ghost meaning = { tags };

    ghost held = { tags_held };

    ghost lawful = { tags_lawful };

    ghost sound = { held_sound };

    // The questions read a field each, as those of RoundRobin do: the trait is what both share, and one struct below both could not
    // derive Copy (lib.rt).
    fn flow_count(&self) -> u8 {
        self.count
    }

    fn weight(&self, flow: u8) -> Option<u32> {
        self.stamp(flow).map(|stamp| u32::from(stamp.weight))
    }

    fn allowance(&self, flow: u8) -> Option<u32> {
        let stamp = self.stamp(flow)?;
        let weight = u32::from(stamp.weight);
        let rest = u32::from(self.total) - weight;
        let others = u32::from(self.count) - 1;
        Some(2 * u32::from(self.lookahead) * weight * rest + weight * others + rest)
    }

    fn total_weight(&self) -> u32 {
        u32::from(self.total)
    }

    fn is_due(&self, flow: u8) -> bool {
        self.stamp(flow).is_some_and(|stamp| stamp.due)
    }

    fn enter(&mut self, flow: u8) {
        self.switch(flow, true);
    }

    fn leave(&mut self, flow: u8) {
        self.switch(flow, false);
    }

    #[inline(always)]
    fn turn(&mut self) -> Option<u8> {
        let flow = self.pick()?;
        self.charge(flow);
        Some(flow)
    }
}
