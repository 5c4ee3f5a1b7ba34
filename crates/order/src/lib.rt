//! One search for the least entry of a list, for every kind of entry that has a total order.

#![tactic(auto)]

ghost use Rattle.std.specs.Prelude.{◌≡◌, Bool};
ghost use Rattle.std.specs.Cmp.{IsStrictWeakOrder};
ghost use Rattle.order.specs.Least.{LeastAt};

#[cfg(test)]
mod tests;

/// Entries with a total order: of any two, one precedes the other or they tie.
// A trait of its own and no Ord: entries that tie, as fractions do, need not be equal.
pub trait TotalOrder {
    /// Whether one entry precedes another.
    ghost before: { Self → Self → Bool };

    /// Whether this entry precedes the other one.
    fn precedes(&self, other: &Self) -> bool
        ensures { result ≡ before self.now other.now };

    /// An entry that precedes another is not preceded by it; and one that does not precede a second, which does not
    /// precede a third, does not precede the third.
    ghost ranks: { IsStrictWeakOrder before };
}

/// The place of the least entry, the lowest of those that tie; none in an empty list.
pub fn least<T: TotalOrder>(entries: &[T]) -> Option<usize>
    ensures { LeastAt T.before entries.now result }
{
    entries
        .iter()
        .enumerate()
        .reduce(|(best_place, best), (place, entry)| {
            if entry.precedes(best) {
                (place, entry)
            } else {
                (best_place, best)
            }
        })
        .map(|(place, _)| place)
}
