//! The limits of a script, by name.

/// So many bytes a script may have: 1 MiB.
pub const MOST_SCRIPT_BYTES: usize = 1_048_576;

/// So many rounds a script may have. Its files have the limit of a batch, `MOST_FILES` of
/// `ym_machine`.
pub const MOST_ROUNDS: usize = 65_535;
