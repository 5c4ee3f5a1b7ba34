ghost use Rattle.std.specs.Prelude.{◌≡◌, map};
ghost use Rattle.tag_rule.specs.Rule.{lowest, time_after};
ghost use Rattle.tag_rule.specs.Tags.{later};
ghost use Rattle.tags.specs.Base.{stays};

use tag_rule::stamp::Stamp;

/// Whether virtual time surely stays where it is while a flow's stamp changes: a due flow is at it before and after.
pub(crate) fn stays(time: u32, old: &Stamp, new: &Stamp) -> bool
    ensures { result ≡ stays time old.now new.now }
{
    if old.due {
        // Then another flow is at it: it is the smallest start tag of the due flows.
        time < old.tag
    } else {
        new.due && new.tag == time
    }
}

/// Virtual time moved on: the smallest start tag of the due flows, if there are any.
pub(crate) fn moved_on(time: u32, stamps: &[Stamp]) -> u32
    ensures { result ≡ time_after time (lowest stamps.now) }
{
    stamps
        .iter()
        .filter(|stamp| stamp.due)
        .map(|stamp| stamp.tag)
        .min()
        .unwrap_or(time)
}

/// Counts start tags from virtual time `time`. A tag below it becomes 0, just as when its flow enters.
// Apart and never inlined, as it is seldom needed.
#[cold]
#[inline(never)]
pub(crate) fn count_from(time: u32, stamps: &mut [Stamp])
    ensures { stamps.new ≡ map (later time) stamps.old }
{
    for stamp in stamps {
        stamp.tag = stamp.tag.saturating_sub(time);
    }
}
