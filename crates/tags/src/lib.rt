//! Tags, one of the two references: of the due flows that are not too far ahead of their share, a turn marks the one
//! that would finish first.

#![tactic(auto)]

ghost use Rattle.std.specs.Prelude.{◌≡◌, ◌≤◌, length, map, take};
ghost use Rattle.reference.specs.Flows.{sum};
ghost use Rattle.tag_rule.specs.Rule.{lowest, time_after};
ghost use Rattle.tag_rule.specs.Tags.{KeptBelow, later, weight_of};
ghost use Rattle.tags.specs.Base.{latest};

use tag_rule::stamp::Stamp;

mod calls;
mod flows;
mod of;
mod parts;
mod pick;
mod time;

/// Tags over the flows of a table. It holds start tags and virtual time, all of them counted from a base, which moves up
/// to virtual time now and then: so the numbers stay small for ever. Where the base is makes no difference to what a
/// value holds.
#[derive(Clone, Copy)]
pub struct Tags {
    // An array of 16 beside its count, with a slice and a question over it, as in Table: these types are Copy, which an
    // ArrayVec is not, and which a struct over [T; 16] with facts cannot derive.
    stamps: [Stamp; 16],
    time: u32,
    count: u8,
    lookahead: u8,
    total: u16,
    ghost sized: { length stamps ≡ 16 },
    ghost some: { 1 ≤ count },
    ghost few: { count ≤ 16 },
    ghost looks: { lookahead ≤ 16 },
    ghost early: { time ≤ latest },
    ghost kept: { KeptBelow lookahead (map (later time) stamps) count },
    ghost on_time: { time_after time (lowest (take count stamps)) ≡ time },
    ghost summed: { total ≡ sum weight_of (take count stamps) },
}
