ghost use Rattle.std.specs.Prelude.{◌≡◌, ◌≤◌, length, take};
ghost use Rattle.cell_rules.specs.Rules.{most};
ghost use Rattle.cell_rules.specs.Facts.{KeptRows};

use cell_rules::row::Row;

mod arrive;
mod book;
mod of;
mod questions;
mod steps;

/// What is counted of every flow of a cell, and the number of slots that are booked.
// Neither Copy nor Clone: what is counted is counted once.
#[derive(Drop)]
pub(crate) struct Ledger {
    // An array of 16 beside its count, as in a table and in both references.
    rows: [Row; 16],
    count: u8,
    slots: u32,
    ghost sized: { length rows ≡ 16 },
    ghost some: { 1 ≤ count },
    ghost few: { count ≤ 16 },
    ghost early: { slots ≤ most },
    ghost kept: { KeptRows slots (take count rows) },
}
