//! The fixed numbers of a table's bytes, which reading expects and writing writes.

/// The length, in the first two bytes, which does not count them.
pub(crate) const LENGTH_BYTES: usize = 2;

/// The bytes before the lines: the length, the version, the kind, the lookahead and the flow count.
pub(crate) const HEADER_BYTES: usize = 6;

/// The bytes of a line.
pub(crate) const LINE_BYTES: usize = 4;

/// The bytes of the longest table, which has sixteen lines.
pub(crate) const MOST_BYTES: usize = HEADER_BYTES + 16 * LINE_BYTES;

/// The version of the format.
pub(crate) const VERSION: u8 = 1;
