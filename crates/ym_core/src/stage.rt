//! Where a running receiver stands.

/// What a receiver knows of the file that it takes.
#[derive(Clone, Copy, Debug, PartialEq, Eq)]
pub struct OpenFile {
    /// The length that the header states, in bytes.
    pub length: u64,
    /// How many bytes the sink has taken.
    pub taken: u64,
    /// How many data blocks were taken; the next one has this number and one, modulo 256.
    pub blocks: u64,
    /// Whether a first EOT was accepted.
    pub first_eot: bool,
}

/// Whether a header is awaited, or a file is taken.
#[derive(Clone, Copy, Debug, PartialEq, Eq)]
pub enum Stage {
    /// A header is awaited.
    AwaitHeader,
    /// This file is taken.
    InFile(OpenFile),
}
