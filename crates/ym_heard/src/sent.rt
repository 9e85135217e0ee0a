//! What an end wrote last.

ghost use Rattle.std.specs.Prelude.{◌≡◌, ◌≤◌, ◌<◌, length, position};
ghost use Rattle.ym_heard.specs.Sent as table;

/// What it was.
#[derive(Clone, Copy)]
pub enum Kind {
    /// Nothing yet.
    Nothing,
    /// Block 0 of a file.
    Opening,
    /// Block 0 of a file that it says has no bytes.
    Empty,
    /// A data block.
    Data,
    /// The end of a file's data.
    Eot,
    /// The block that ends the batch.
    End,
    /// Something shorter than a block.
    Short,
}

impl Kind {
    /// Whether it is block 0 of a file.
    pub fn opens(self) -> bool
        ensures { result ≡ table.opens self }
    {
        match self {
            Kind::Opening | Kind::Empty => true,
            _ => false,
        }
    }

    /// Whether it is the block that ends the batch.
    pub fn ends(self) -> bool
        ensures { result ≡ table.ends self }
    {
        match self {
            Kind::End => true,
            _ => false,
        }
    }
}

/// What tells one frame of a batch from the next one.
#[derive(Clone, Copy)]
pub struct Sent {
    /// How many bytes.
    pub length: usize,
    /// The first byte, or 0.
    pub first: u8,
    /// The second byte, or 0: the number of a block.
    pub second: u8,
    /// What it was.
    pub kind: Kind,
}

/// The byte there, or 0.
fn byte_at(bytes: &[u8], place: usize) -> u8
    ensures { result ≡ table.byte_at bytes.now place }
{
    if place < bytes.len() { bytes[place] } else { 0 }
}

/// Where a name ends.
fn name_end(body: &[u8]) -> Option<usize>
    ensures { result ≡ position table.is_zero body.now }
{
    body.iter().position(|byte| *byte == 0)
}

/// What stands behind the name in a block 0's body: the file's length first.
fn behind_name(body: &[u8]) -> &[u8]
    ensures { result.now ≡ table.behind_name body.entry.now }
{
    match name_end(body) {
        Some(end) => &body[end + 1..],
        None => &[],
    }
}

/// Whether a block 0 says that its file has no bytes. An end writes no 0 in front of a length.
fn is_empty(bytes: &[u8]) -> bool
    requires { 3 ≤ length bytes.now }
    ensures { result ≡ table.is_empty bytes.now }
{
    byte_at(behind_name(&bytes[3..]), 0) == b'0'
}

/// What the first block 0 of a file is.
fn first_kind(bytes: &[u8]) -> Kind
    requires { 3 < length bytes.now }
    ensures { result ≡ table.first_kind bytes.now }
{
    if bytes[3] == 0 {
        Kind::End
    } else if is_empty(bytes) {
        Kind::Empty
    } else {
        Kind::Opening
    }
}

impl Sent {
    /// Nothing was written.
    pub fn nothing() -> Sent
        ensures { result ≡ table.nothing }
    {
        Sent {
            length: 0,
            first: 0,
            second: 0,
            kind: Kind::Nothing,
        }
    }

    /// What a block with number 0 is, behind this: the first of a file stands at the front of a
    /// batch or behind an EOT.
    #[inline(never)] // one of it is enough for a small board
    fn zero_kind(self, bytes: &[u8]) -> Kind
        requires { 3 < length bytes.now }
        ensures { result ≡ table.zero_kind self.kind bytes.now }
    {
        match self.kind {
            Kind::Nothing | Kind::Eot | Kind::Short => first_kind(bytes),
            kind => kind,
        }
    }

    /// These bytes as far as `is` looks at them. What they are is not asked.
    #[inline(always)]
    pub fn named(self, bytes: &[u8]) -> Sent
        ensures { result ≡ table.named self bytes.now }
    {
        Sent {
            length: bytes.len(),
            first: byte_at(bytes, 0),
            second: byte_at(bytes, 1),
            kind: self.kind,
        }
    }

    /// What these bytes are, behind this.
    pub fn then(self, bytes: &[u8]) -> Sent
        ensures { result ≡ table.next self bytes.now }
    {
        let named = self.named(bytes);
        let kind = if bytes.len() == 1 {
            Kind::Eot
        } else if bytes.len() <= 3 {
            Kind::Short
        } else if named.second == 0 {
            self.zero_kind(bytes)
        } else {
            Kind::Data
        };
        Sent {
            length: named.length,
            first: named.first,
            second: named.second,
            kind,
        }
    }

    /// Whether it is the same frame.
    pub fn is(self, other: Sent) -> bool
        ensures { result ≡ table.is_same self other }
    {
        self.length == other.length && self.first == other.first && self.second == other.second
    }
}
