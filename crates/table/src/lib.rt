//! The table that sets a cell up: a type that keeps the rules of the format, its bytes and its faults.

#![tactic(auto)]

ghost use Rattle.std.specs.Prelude.{◌≡◌, ◌-◌, ◌≤◌, true, length, take, drop, replicate};
ghost use Rattle.table.specs.Lines.{lookahead_fits, lines_fit, no_line};

use crate::line::{Kind, Line};

mod header;
mod layout;
pub mod line;
mod questions;
mod read;
mod sixteen;
mod write;

/// A table that keeps every rule of its format: what a cell is set up from.
#[derive(Clone, Copy, PartialEq, Eq, Debug)]
pub struct Table {
    kind: Kind,
    lookahead: u8,
    flow_count: u8,
    // An array of 16 beside its count, with a slice and a question over it, as in both references: these types are
    // Copy, which an ArrayVec is not, and which a struct over [T; 16] with facts cannot derive.
    lines: [Line; 16],
    ghost some: { 1 ≤ flow_count },
    ghost few: { flow_count ≤ 16 },
    ghost looks: { lookahead_fits kind lookahead ≡ true },
    ghost fit: { lines_fit kind (take flow_count lines) ≡ true },
    ghost whole: { length lines ≡ 16 },
    ghost spare: { drop flow_count lines ≡ replicate (16 - flow_count) no_line },
}
