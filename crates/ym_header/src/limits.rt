//! The limits of a header, by name.

/// So many bytes a file's name may have.
pub const MOST_NAME_BYTES: usize = 255;

/// The largest length that a header may tell: 2^63 - 1.
pub const MOST_LENGTH: u64 = 0x7fff_ffff_ffff_ffff;
