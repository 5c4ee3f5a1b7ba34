ghost use Rattle.std.specs.Prelude.{◌≡◌, ◌<◌, length, IfSome};
ghost use Rattle.std.specs.Option.{option_map_or};
ghost use Rattle.record.specs.declared.taking.Taking.TheVariants.{Free, Idle};
ghost use Rattle.cell_rules.specs.Rules.{
  lowest_able,
  unmarked_slot,
  leading_slot,
  owing_slot,
  forfeited_slot,
  repaid_or_free,
  passed_on,
  marked_slot,
  slot_of,
};
ghost use Rattle.cell_rules.specs.Bookable.{Settles};
ghost use Rattle.cell_rules.specs.RecordFits.{FitsRecord};
ghost use Rattle.cell.specs.FlowsView.{clean_of, rows_of};
ghost use Rattle.cell.specs.RingView.{ring_held, MovesRing};

use crate::flows::Flows;
use crate::ring::Ring;
use record::taking::Charge::{self, Forfeited, LagUp, LeadDown, Nothing};
use record::taking::Taking::{self, Free, Idle, LagRepaid, LeadCharged, Own};

impl Flows<'_> {
    /// The lowest able flow sends; nobody, if none is able.
    fn free_or_idle(&self) -> Taking
        ensures { result ≡ option_map_or Free (lowest_able (rows_of self.now) (clean_of self.now)) Idle }
    {
        self.lowest_able().map_or(Idle, Free)
    }

    /// The flow that the ring finds sends, and else the lowest able flow.
    fn repaid_or_free(&self, ring: &mut Ring) -> Taking
        ensures taking { result ≡ repaid_or_free (rows_of self.now) (clean_of self.now) (ring_held ring.old) }
        ensures moved { MovesRing self.now ring.old result ring.new }
    {
        match ring.find(self) {
            Some(flow) => LagRepaid(flow),
            None => self.free_or_idle(),
        }
    }

    /// The flow that the ring finds sends, else a chargeable flow, and else the lowest able flow.
    fn passed_on(&self, ring: &mut Ring) -> Taking
        ensures taking { result ≡ passed_on (rows_of self.now) (clean_of self.now) (ring_held ring.old) }
        ensures moved { MovesRing self.now ring.old result ring.new }
    {
        if let Some(flow) = ring.find(self) {
            return LagRepaid(flow);
        }
        match self.chargeable() {
            Some(flow) => LeadCharged(flow),
            None => self.free_or_idle(),
        }
    }

    /// Settles a slot that is nobody's turn.
    fn settle_unmarked(&self, ring: &mut Ring) -> (Taking, Charge)
        ensures settled { result ≡ unmarked_slot (rows_of self.now) (clean_of self.now) (ring_held ring.old) }
        ensures moved { MovesRing self.now ring.old result.0 ring.new }
    {
        (self.repaid_or_free(ring), Nothing)
    }

    /// Settles a slot in which the marked flow leads.
    fn settle_leading(&self, ring: &mut Ring, marked: u8) -> (Taking, Charge)
        ensures settled { result ≡ leading_slot (rows_of self.now) (clean_of self.now) (ring_held ring.old) marked }
        ensures moved { MovesRing self.now ring.old result.0 ring.new }
    {
        if self.row(marked).is_designated()
            && let Some(flow) = ring.find(self)
        {
            return (LagRepaid(flow), LeadDown);
        }
        if self.is_able(marked) {
            return (Own(marked), Nothing);
        }
        (self.passed_on(ring), LeadDown)
    }

    /// Settles a slot in which the marked flow does not lead, is waiting and dirty, and its lag is below the limit.
    fn settle_owing(&self, ring: &mut Ring) -> (Taking, Charge)
        ensures settled { result ≡ owing_slot (rows_of self.now) (clean_of self.now) (ring_held ring.old) }
        ensures moved { MovesRing self.now ring.old result.0 ring.new }
    {
        if let Some(flow) = ring.find(self) {
            return (LagRepaid(flow), LagUp);
        }
        match self.chargeable() {
            Some(flow) => (LeadCharged(flow), LagUp),
            None => (self.free_or_idle(), Forfeited),
        }
    }

    /// Settles a slot in which the marked flow does not lead, and has nothing waiting, or is dirty with its
    /// lag at the limit.
    fn settle_forfeited(&self, ring: &mut Ring) -> (Taking, Charge)
        ensures settled { result ≡ forfeited_slot (rows_of self.now) (clean_of self.now) (ring_held ring.old) }
        ensures moved { MovesRing self.now ring.old result.0 ring.new }
    {
        (self.repaid_or_free(ring), Forfeited)
    }

    /// Settles a slot that is this flow's turn.
    #[inline(always)]
    fn settle_marked(&self, ring: &mut Ring, marked: u8) -> (Taking, Charge)
        ensures settled { result ≡ marked_slot (rows_of self.now) (clean_of self.now) (ring_held ring.old) marked }
        ensures moved { MovesRing self.now ring.old result.0 ring.new }
    {
        let row = self.row(marked);
        if row.leads() {
            self.settle_leading(ring, marked)
        } else if self.is_able(marked) {
            (Own(marked), Nothing)
        } else if row.waiting() > 0 && row.lag < row.lag_limit {
            self.settle_owing(ring)
        } else {
            self.settle_forfeited(ring)
        }
    }

    /// Settles a slot: who sends, and what the marked flow, if there is one, is charged.
    #[inline(always)]
    pub(crate) fn settle(&self, ring: &mut Ring, marked: Option<u8>) -> (Taking, Charge)
        requires { IfSome marked (λ flow. flow < length (rows_of self.now)) }
        ensures settled { result ≡ slot_of (rows_of self.now) (clean_of self.now) (ring_held ring.old) marked }
        ensures moved { MovesRing self.now ring.old result.0 ring.new }
        ensures fits { FitsRecord (length (rows_of self.now)) marked result }
        ensures books { Settles (rows_of self.now) marked result.0 result.1 }
    {
        let Some(flow) = marked else {
            return self.settle_unmarked(ring);
        };
        self.settle_marked(ring, flow)
    }
}
