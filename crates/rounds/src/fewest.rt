ghost use Rattle.rounds.specs.Fewest.{FewestMarks};

/// The fewest marks that are still a flow's share of so many turns, by its weight, the total weight and its allowance;
/// none for a total weight of 0.
pub fn fewest_marks(turns: u32, weight: u32, total: u32, allowance: u32) -> Option<u64>
    ensures { FewestMarks turns weight total allowance result }
{
    let owed = (u64::from(turns) * u64::from(weight)).saturating_sub(u64::from(allowance));
    (total > 0).then(|| owed.div_ceil(u64::from(total)))
}
