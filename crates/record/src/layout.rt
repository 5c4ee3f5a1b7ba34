//! The fixed bytes of a record, which reading expects and writing writes.

/// The length in its first two bytes, which does not count them.
pub(crate) const LENGTH: u16 = 10;

/// The version of the format.
pub(crate) const VERSION: u8 = 1;

/// What the byte of a flow holds where there is no flow.
pub(crate) const NO_FLOW: u8 = 255;
