ghost use Rattle.std.specs.Prelude.{◌≡◌, ◌<◌, slice_set};
ghost use Rattle.std.specs.Option.{option_map};
ghost use Rattle.tag_rule.specs.Rule.{stamp_at};
ghost use Rattle.tag_rule.specs.Tags.{Ahead, Kept, later, seen, stamp_of};
ghost use Rattle.tags.specs.Base.{moved_on};
ghost use Rattle.tags.specs.View.{clock_of, tags_held};

use crate::Tags;
use crate::time::{count_from, moved_on, stays};
use tag_rule::stamp::Stamp;

/// The latest virtual time, counted from the base: past it the base moves up.
const LATEST: u32 = 1_000_000_000;

impl Tags {
    /// The stamp of each flow.
    pub(crate) fn flows(&self) -> &[Stamp]
        ensures { result.now ≡ (clock_of self.now).stamps }
    {
        &self.stamps[..usize::from(self.count)]
    }

    /// The stamp of a flow; none past the last flow.
    pub(crate) fn stamp(&self, flow: u8) -> Option<Stamp>
        ensures { option_map (later self.now.time) result ≡ stamp_of (tags_held self.now) flow }
    {
        self.flows().get(usize::from(flow)).copied()
    }

    /// Holds another stamp of a flow, and moves virtual time on.
    pub(crate) fn put(&mut self, flow: u8, stamp: Stamp)
        requires inside { flow < self.old.count }
        requires same_weight { stamp.weight ≡ (stamp_at (clock_of self.old).stamps flow).weight }
        requires kept { Kept self.old.lookahead (later self.old.time stamp) }
        requires ahead { Ahead self.old.time stamp }
        ensures { tags_held self.new ≡ seen (moved_on (clock_of self.old) (slice_set (clock_of self.old).stamps flow stamp)) }
    {
        let place = usize::from(flow);
        let old = self.stamps[place];
        self.stamps[place] = stamp;
        // Most calls leave virtual time where it is, which is seen without a look at each flow.
        if !stays(self.time, &old, &stamp) {
            // The slice is taken of the array: `flows` would lend the whole value, which is whole only after the last line.
            self.time = moved_on(self.time, &self.stamps[..usize::from(self.count)]);
            if self.time > LATEST {
                count_from(self.time, &mut self.stamps);
                self.time = 0;
            }
        }
    }
}
