ghost use Rattle.std.specs.Prelude.{◌≡◌};
ghost use Rattle.tag_rule.specs.Rule.{fresh};

use table::line::Line;

/// What tags hold of one flow: plain numbers, with no invariant of their own.
#[derive(Clone, Copy, Default)]
pub struct Stamp {
    /// The flow's weight: the larger, the less a turn adds to its start tag.
    pub weight: u8,
    /// The flow's delay weight: the larger, the sooner its finish tag follows its start tag.
    pub delay_weight: u8,
    /// The start tag, counted from wherever the one who holds it counts from.
    pub tag: u32,
    /// Whether the flow is due.
    pub due: bool,
}

/// What is held of a flow before its first turn.
impl From<Line> for Stamp {
    ghost from_gives = { λ line stamp. stamp ≡ fresh line };

    fn from(line: Line) -> Stamp {
        Stamp {
            weight: line.weight,
            delay_weight: line.delay_weight,
            ..Stamp::default()
        }
    }
}
