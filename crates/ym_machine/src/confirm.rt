//! How often a receiver wants an EOT before it commits.

/// How often a receiver wants the EOT of a file before it commits the file. The reference leaves
/// this open; this profile has both.
#[derive(Clone, Copy, Debug, PartialEq, Eq)]
pub enum Confirm {
    /// The first EOT is answered with NAK, and the second one commits.
    Twice,
    /// The first EOT commits.
    Once,
}
