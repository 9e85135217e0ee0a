//! What a command reads from and writes to.

/// Where a command prints, and where it tells its faults.
#[derive(Drop)]
pub struct Outputs<O, E> {
    /// Where it prints.
    pub out: O,
    /// Where it tells its faults.
    pub err: E,
}

/// What a command reads from and writes to.
#[derive(Drop)]
pub struct Streams<I, O, E> {
    /// Where it reads.
    pub input: I,
    /// Where it writes.
    pub outputs: Outputs<O, E>,
}
