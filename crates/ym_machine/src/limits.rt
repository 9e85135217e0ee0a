//! The limits of a session, by name.

/// So many deliveries in a row without progress, and an end gives up: it hears no reply, or has met
/// too many errors.
pub const GIVE_UP: u8 = 10;

/// So many bad rounds in a row leave both ends running, wherever they come: the largest number of
/// which twice as many and one more are fewer than [`GIVE_UP`].
pub const BURST: u8 = (GIVE_UP - 2) / 2;

/// So many files may stand in one batch.
pub const MOST_FILES: usize = 65_535;
