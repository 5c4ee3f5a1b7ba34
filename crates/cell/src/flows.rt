ghost use Rattle.std.specs.Prelude.{ℕ, ◌<◌, ◌≤◌, length};
ghost use Rattle.cell_rules.specs.Rules.{at};
ghost use Rattle.cell_rules.specs.Facts.{Facts};

use crate::flow_set::FlowSet;
use cell_rules::row::Row;

/// What is known of the flows before a slot: what is counted of each, and who is clean.
#[derive(Clone, Copy)]
pub(crate) struct Flows<'a> {
    /// What is counted of each flow.
    pub(crate) rows: &'a [Row],
    /// Who is clean.
    pub(crate) clean: FlowSet,
    ghost few: { length rows.now ≤ 16 },
    ghost facts: { (f : ℕ) → f < length rows.now → Facts (at rows.now f) },
}

impl Flows<'_> {
    ghost use Rattle.std.specs.Prelude.{◌≡◌, ◌-◌, ◌&&◌, nat_lt, IfSome};
    ghost use Rattle.std.specs.List.{find, range_with_len};
    ghost use Rattle.cell_rules.specs.Rules.{waiting, able, lags, lowest_able, repayable};
    ghost use Rattle.cell_rules.specs.InOrder.{LowestAble};
    ghost use Rattle.cell.specs.FlowsView.{clean_of, rows_of};

    /// The number of the flows.
    pub(crate) fn count(&self) -> u8
        ensures { result ≡ length (rows_of self.now) }
    {
        self.rows.len() as u8
    }

    /// What is counted of a flow; past the last one, nothing.
    pub(crate) fn row(&self, flow: u8) -> Row
        ensures { result ≡ at (rows_of self.now) flow }
    {
        self.rows
            .get(usize::from(flow))
            .copied()
            .unwrap_or_default()
    }

    /// Whether a flow with this row can send: it is waiting and clean.
    pub(crate) fn can_send(&self, flow: u8, row: &Row) -> bool
        ensures { result ≡ (nat_lt 0 (waiting row.now) && clean_of self.now flow) }
    {
        row.waiting() > 0 && self.clean.contains(flow)
    }

    /// Whether a flow is waiting and clean; a number past the last flow never is.
    pub(crate) fn is_able(&self, flow: u8) -> bool
        ensures { result ≡ able (rows_of self.now) (clean_of self.now) flow }
    {
        self.can_send(flow, &self.row(flow))
    }

    /// Whether a flow with this row is lagging and able.
    fn can_be_repaid(&self, flow: u8, row: &Row) -> bool
        ensures { result ≡ (lags row.now && (nat_lt 0 (waiting row.now) && clean_of self.now flow)) }
    {
        row.lags() && self.can_send(flow, row)
    }

    /// Whether a flow is lagging and able; a number past the last flow never is.
    pub(crate) fn is_repayable(&self, flow: u8) -> bool
        ensures { result ≡ repayable (rows_of self.now) (clean_of self.now) flow }
    {
        self.can_be_repaid(flow, &self.row(flow))
    }

    /// The lowest lagging flow that is able, of those from one up to another, which is not among them.
    pub(crate) fn first_repayable(&self, from: u8, to: u8) -> Option<u8>
        ensures found { result ≡ find (repayable (rows_of self.now) (clean_of self.now)) (range_with_len from (to - from)) }
        ensures inside { IfSome result (λ flow. flow < to) }
    {
        let end = usize::from(to).min(self.rows.len());
        for place in usize::from(from)..end {
            let flow = place as u8;
            if self.can_be_repaid(flow, &self.rows[place]) {
                return Some(flow);
            }
        }
        None
    }

    /// The lowest flow that is able.
    pub(crate) fn lowest_able(&self) -> Option<u8>
        ensures exact { result ≡ lowest_able (rows_of self.now) (clean_of self.now) }
        ensures lowest { LowestAble (rows_of self.now) (clean_of self.now) result }
    {
        for (place, row) in self.rows.iter().enumerate() {
            let flow = place as u8;
            if self.can_send(flow, row) {
                return Some(flow);
            }
        }
        None
    }
}
