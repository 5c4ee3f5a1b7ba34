ghost use Rattle.std.specs.Prelude.{◌≡◌, map, All};
ghost use Rattle.cell_rules.specs.Rules.{at, leaders, first_leader, can_start_to_lead, first_in_sync, chargeable};
ghost use Rattle.cell_rules.specs.InOrder.{ChargedInOrder};
ghost use Rattle.cell.specs.FlowsView.{clean_of, rows_of};
ghost use Rattle.cell.specs.Leaders.{flow_of, HasItsRow, LeaderOf};

use crate::flows::Flows;
use crate::leader::Leader;
use arrayvec::ArrayVec;
use cell_rules::row::Row;
use order::least;

impl Flows<'_> {
    /// A flow, which has this row, as a leader, if it is able, leading and below its lead limit.
    fn leader(&self, flow: u8, row: &Row) -> Option<Leader>
        requires { row.now ≡ at (rows_of self.now) flow }
        ensures { LeaderOf (rows_of self.now) (clean_of self.now) flow result }
    {
        if row.leads() && row.lead < row.lead_limit && self.can_send(flow, row) {
            Some(Leader {
                flow,
                lead: row.lead,
                limit: row.lead_limit,
            })
        } else {
            None
        }
    }

    /// The leaders, the lowest flow first.
    fn leaders(&self) -> ArrayVec<Leader, 16>
        ensures who { map flow_of result.items ≡ leaders (rows_of self.now) (clean_of self.now) }
        ensures read { All (HasItsRow (rows_of self.now)) result.items }
    {
        let mut found = ArrayVec::new();
        for (place, row) in self.rows.iter().enumerate() {
            if let Some(leader) = self.leader(place as u8, row) {
                found.push(leader);
            }
        }
        found
    }

    /// The first leader: the one whose lead is the smallest part of its lead limit, the lowest of those that tie.
    fn first_leader(&self) -> Option<u8>
        ensures { result ≡ first_leader (rows_of self.now) (clean_of self.now) }
    {
        let leaders = self.leaders();
        let first = least(&leaders)?;
        Some(leaders[first].flow)
    }

    /// Whether a flow is able, in sync, and allowed to lead.
    fn can_start_to_lead(&self, flow: u8) -> bool
        ensures { result ≡ can_start_to_lead (rows_of self.now) (clean_of self.now) flow }
    {
        let row = self.row(flow);
        self.is_able(flow) && row.is_in_sync() && row.lead_limit > 0
    }

    /// The lowest flow that is able, in sync, and allowed to lead.
    fn first_in_sync(&self) -> Option<u8>
        ensures { result ≡ first_in_sync (rows_of self.now) (clean_of self.now) }
    {
        (0..self.count()).find(|flow| self.can_start_to_lead(*flow))
    }

    /// The flow that is charged lead if it sends in another flow's turn: the first leader, and else the lowest flow
    /// in sync that can start to lead.
    pub(crate) fn chargeable(&self) -> Option<u8>
        ensures exact { result ≡ chargeable (rows_of self.now) (clean_of self.now) }
        ensures in_order { ChargedInOrder (rows_of self.now) (clean_of self.now) result }
    {
        match self.first_leader() {
            Some(flow) => Some(flow),
            None => self.first_in_sync(),
        }
    }
}
