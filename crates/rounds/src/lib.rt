//! Many calls on a reference at once: every flow enters, and one turn after another. Each flow that is due has its
//! share of the turns.

#![tactic(auto)]

ghost use Rattle.std.specs.Prelude.{◌≡◌, ℕ, ◌<◌, true, [], length};
ghost use Rattle.std.specs.List.{AllByRecursion};
ghost use Rattle.reference.specs.Calls.{marks_of, turns_then};
ghost use Rattle.reference.specs.Meaning.{SameNumbers};
ghost use Rattle.reference.specs.Shares.{times_marked, HasShare, GivesShares};
ghost use Rattle.rounds.specs.Rounds.{entered_below, after_turns, MarkIsDue};

use reference::Reference;

mod fewest;
mod run;

pub use fewest::fewest_marks;
pub use run::two_rounds;

/// Every flow enters, flow 0 first: after it every flow is due.
pub fn enter_all<R: Reference>(reference: &mut R)
    ensures after { R.held reference.new ≡ entered_below R.meaning (R.held reference.old) (R.meaning.flows (R.held reference.old)) }
    ensures due { (f : ℕ) → f < R.meaning.flows (R.held reference.old) → R.meaning.due (R.held reference.new) f ≡ true }
    ensures numbers { SameNumbers R.meaning (R.held reference.old) (R.held reference.new) }
{
    for flow in 0..reference.flow_count() {
        reference.enter(flow);
    }
}

/// Takes a turn for each place of `marks`; the place then holds what the turn marked. Each flow that was due has its
/// share of the marks; and it would have its share of the turns in any calls, in any order, by which it does not leave.
pub fn take_turns<R: Reference>(reference: &mut R, marks: &mut [Option<u8>])
    ensures marks { marks.new ≡ marks_of R.meaning (R.held reference.old) (turns_then (length marks.old) []) }
    ensures after { R.held reference.new ≡ after_turns R.meaning (R.held reference.old) (length marks.old) }
    ensures marks_due { AllByRecursion (MarkIsDue R.meaning (R.held reference.old)) marks.new }
    ensures shares { (f : ℕ) → R.meaning.due (R.held reference.old) f ≡ true → HasShare R.meaning (R.held reference.old) f marks.new }
    ensures shares_in_any_calls { GivesShares R.meaning (R.held reference.old) }
{
    for place in marks.iter_mut() {
        *place = reference.turn();
    }
}

/// How many turns marked a flow.
pub fn count_marks(marks: &[Option<u8>], flow: u8) -> usize
    ensures { result ≡ times_marked flow marks.now }
{
    marks.iter().filter(|mark| **mark == Some(flow)).count()
}
