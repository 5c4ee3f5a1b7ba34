//! A part of a whole, for people.

#![tactic(auto)]

ghost use Rattle.percent.specs.Rounding.{Nearest};

use std::fmt;

#[cfg(test)]
mod tests;

/// The share of `part` in `whole` in tenths of a percent, to the nearest, a half rounded up; none of a whole of 0.
pub fn tenths_of_percent(part: u64, whole: u64) -> Option<u128>
    ensures { Nearest part whole result }
{
    let whole = u128::from(whole);
    (2000 * u128::from(part) + whole).checked_div(2 * whole)
}

/// A number of tenths, which prints with its decimal: `Tenths(429)` as 42.9. A width is that of all of it.
#[derive(Clone, Copy, PartialEq, Eq, Debug)]
pub struct Tenths(pub u128);

impl fmt::Display for Tenths {
    fn fmt<W: fmt::Write>(&self, f: &mut fmt::Formatter<W>) -> fmt::Result {
        let whole = self.0 / 10;
        let rest = self.0 % 10;
        // The point and the decimal take two places.
        let width = f.width().unwrap_or(0).saturating_sub(2);
        write!(f, "{whole:>width$}.{rest}")
    }
}
