ghost use Rattle.std.specs.Prelude.{◌≡◌};

use table::line::Line;

/// What is counted of one flow since the creation of its cell: plain numbers, with no invariant of their own.
#[derive(Clone, Copy, PartialEq, Eq, Debug, Default)]
pub struct Row {
    /// The packets that arrived.
    pub arrived: u32,
    /// The slots that were the flow's turn.
    pub marked: u32,
    /// The packets that it sent.
    pub sent: u32,
    /// Those of them that it sent on no account.
    pub free: u32,
    /// The turns that it lost.
    pub forfeited: u32,
    /// By how many packets it is ahead of its turns.
    pub lead: u8,
    /// By how many packets it is behind its turns.
    pub lag: u8,
    /// Its leads at its turns, added up to the lead limit: when they reach it, the slot is meant for a lagging flow.
    pub giving: u8,
    /// How far it may lag.
    pub lag_limit: u8,
    /// How far it may lead.
    pub lead_limit: u8,
}

/// A flow of a table, of which nothing has been counted.
impl From<Line> for Row {
    ghost use Rattle.cell_rules.specs.Rules.{fresh};

    ghost from_gives = { λ line row. row ≡ fresh line };

    fn from(line: Line) -> Row {
        Row {
            lag_limit: line.lag_limit,
            lead_limit: line.lead_limit,
            ..Row::default()
        }
    }
}

impl Row {
    ghost use Rattle.cell_rules.specs.Rules.{waiting, due, leads, lags, in_sync, designated};

    /// How many packets wait.
    pub fn waiting(&self) -> u32
        ensures { result ≡ waiting self.now }
    {
        self.arrived.saturating_sub(self.sent)
    }

    /// How many turns the flow is still to have for what arrived.
    pub fn due(&self) -> u32
        ensures { result ≡ due self.now }
    {
        self.arrived.saturating_sub(self.marked)
    }

    /// Whether it is ahead of its turns.
    pub fn leads(&self) -> bool
        ensures { result ≡ leads self.now }
    {
        self.lead > 0
    }

    /// Whether it is behind its turns.
    pub fn lags(&self) -> bool
        ensures { result ≡ lags self.now }
    {
        self.lag > 0
    }

    /// Whether it neither leads nor lags.
    pub fn is_in_sync(&self) -> bool
        ensures { result ≡ in_sync self.now }
    {
        self.lead == 0 && self.lag == 0
    }

    /// Whether its turn, if it leads, is for a lagging flow.
    pub fn is_designated(&self) -> bool
        ensures { result ≡ designated self.now }
    {
        u16::from(self.giving) + u16::from(self.lead) >= u16::from(self.lead_limit)
    }
}
