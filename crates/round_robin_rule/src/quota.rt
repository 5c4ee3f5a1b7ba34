ghost use Rattle.std.specs.Prelude.{◌≡◌};

use table::line::Line;

/// What a round robin holds of one flow: its weight, how often it was marked in this round, and whether it is due.
#[derive(Clone, Copy, Default)]
pub struct Quota {
    /// The flow's weight, how often it may be marked in a round.
    pub weight: u8,
    /// How often the flow was marked in this round.
    pub used: u8,
    /// Whether the flow is due.
    pub due: bool,
}

/// What is held of a flow of a table before its first turn.
impl From<Line> for Quota {
    ghost use Rattle.round_robin_rule.specs.Rule.{fresh};

    ghost from_gives = { λ line quota. quota ≡ fresh line };

    fn from(line: Line) -> Quota {
        Quota {
            weight: line.weight,
            ..Quota::default()
        }
    }
}

impl Quota {
    ghost use Rattle.round_robin_rule.specs.Rule.{ready};

    /// Whether a turn may mark the flow: it is due and has used below its weight.
    pub fn is_ready(&self) -> bool
        ensures { result ≡ ready self.now }
    {
        self.due && self.used < self.weight
    }
}
