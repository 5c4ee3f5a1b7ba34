ghost use Rattle.std.specs.Prelude.{◌≡◌, MatchResult};
ghost use Rattle.rounds.specs.Rounds.{TwoRounds};

use crate::{enter_all, take_turns};
use reference::Reference;
use std::alloc::{AllocError, Global};

/// Every flow enters, and then come the turns of two rounds, twice as many as the total weight: what they mark. Want of
/// memory leaves the reference as it was.
pub fn two_rounds<R: Reference>(
    alloc: Global,
    reference: &mut R,
) -> Result<Vec<Option<u8>>, AllocError>
    ensures { MatchResult result (λ marks. TwoRounds R.meaning (R.held reference.old) (R.held reference.new) marks.items) (λ _. R.held reference.new ≡ R.held reference.old) }
{
    let turns = 2 * reference.total_weight() as usize;
    let mut marks = vec![in alloc; None; turns]?;
    enter_all(reference);
    take_turns(reference, &mut marks);
    Ok(marks)
}
