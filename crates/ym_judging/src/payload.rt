//! The files that are sent to a receiver.

ghost use Rattle.std.specs.Prelude.{◌≡◌, IfOk};
ghost use Rattle.ym_judging.specs.Contents.{byte_before, content_of, parcel_in};

use std::alloc::{AllocError, Global};
use ym_judge::{Case, Parcel};

/// A file that is sent to a receiver.
#[derive(Clone, Copy)]
pub struct Payload {
    /// The name that its block 0 states.
    pub name: &'static str,
    /// What stands behind the name there.
    pub fields: &'static str,
    /// How many bytes it has.
    pub length: u16,
    /// Whether its block 0 is a long one.
    pub is_long: bool,
}

static USUAL: [Payload; 1] = [Payload {
    name: "judge.bin",
    fields: "1100 14700000000 100644",
    length: 1100,
    is_long: false,
}];

static ONE_BYTE: [Payload; 1] = [Payload {
    name: "judge.bin",
    fields: "1 14700000000 100644",
    length: 1,
    is_long: false,
}];

static EMPTY: [Payload; 1] = [Payload {
    name: "judge.bin",
    fields: "0 14700000000 100644",
    length: 0,
    is_long: false,
}];

static SHORT_FULL: [Payload; 1] = [Payload {
    name: "judge.bin",
    fields: "128 14700000000 100644",
    length: 128,
    is_long: false,
}];

static LONG_FULL: [Payload; 1] = [Payload {
    name: "judge.bin",
    fields: "1024 14700000000 100644",
    length: 1024,
    is_long: false,
}];

static TWO_FILES: [Payload; 2] = [
    Payload {
        name: "judge-1.bin",
        fields: "1100 14700000000 100644",
        length: 1100,
        is_long: false,
    },
    Payload {
        name: "judge-2.bin",
        fields: "200 14700000000 100644",
        length: 200,
        is_long: false,
    },
];

static TWO_EMPTY: [Payload; 2] = [
    Payload {
        name: "judge-1.bin",
        fields: "0 14700000000 100644",
        length: 0,
        is_long: false,
    },
    Payload {
        name: "judge-2.bin",
        fields: "0 14700000000 100644",
        length: 0,
        is_long: false,
    },
];

static NO_TIME: [Payload; 1] = [Payload {
    name: "judge.bin",
    fields: "1100",
    length: 1100,
    is_long: false,
}];

static LONG_NAME: [Payload; 1] = [Payload {
    name: "judge-aaaaaaaaaaaaaaaaaaaaaaaaaaaaaaaaaaaaaaaaaaaaaaaaaaaaaaaaaa\
           bbbbbbbbbbbbbbbbbbbbbbbbbbbbbbbbbbbbbbbbbbbbbbbbbbbbbbbb.bin",
    fields: "1100 14700000000 100644",
    length: 1100,
    is_long: true,
}];

static LONGEST_NAME: [Payload; 1] = [Payload {
    name: "judge-aaaaaaaaaaaaaaaaaaaaaaaaaaaaaaaaaaaaaaaaaaaaaaaaaaaaaaaaaa\
           bbbbbbbbbbbbbbbbbbbbbbbbbbbbbbbbbbbbbbbbbbbbbbbbbbbbbbbbbbbbbbbb\
           cccccccccccccccccccccccccccccccccccccccccccccccccccccccccccccccc\
           ddddddddddddddddddddddddddddddddddddddddddddddddddddddddddd.bin",
    fields: "1100 14700000000 100644",
    length: 1100,
    is_long: true,
}];

static SPACES: [Payload; 1] = [Payload {
    name: "judge this one.bin",
    fields: "1100 14700000000 100644",
    length: 1100,
    is_long: false,
}];

static LONG_HEADER: [Payload; 1] = [Payload {
    name: "judge.bin",
    fields: "1100 14700000000 100644",
    length: 1100,
    is_long: true,
}];

static NO_LENGTH: [Payload; 1] = [Payload {
    name: "judge.bin",
    fields: "",
    length: 1024,
    is_long: false,
}];

static PATH: [Payload; 1] = [Payload {
    name: "folder/judge.bin",
    fields: "1100 14700000000 100644",
    length: 1100,
    is_long: false,
}];

/// The files of a parcel, in order.
pub fn files_of(parcel: Parcel) -> &'static [Payload] {
    match parcel {
        Parcel::Usual => &USUAL,
        Parcel::OneByte => &ONE_BYTE,
        Parcel::Empty => &EMPTY,
        Parcel::ShortFull => &SHORT_FULL,
        Parcel::LongFull => &LONG_FULL,
        Parcel::TwoFiles => &TWO_FILES,
        Parcel::TwoEmpty => &TWO_EMPTY,
        Parcel::NoFiles => &[],
        Parcel::NoTime => &NO_TIME,
        Parcel::LongName => &LONG_NAME,
        Parcel::LongestName => &LONGEST_NAME,
        Parcel::Spaces => &SPACES,
        Parcel::LongHeader => &LONG_HEADER,
        Parcel::NoLength => &NO_LENGTH,
        Parcel::Path => &PATH,
    }
}

/// What is sent in a case.
pub(crate) fn parcel_of(case: Case) -> Parcel
    ensures { result ≡ parcel_in case }
{
    match case {
        Case::Sends(parcel) => parcel,
        Case::Plain | Case::Frame(_, _) | Case::Answer(_, _) | Case::Bytes(_) => Parcel::Usual,
    }
}

/// The byte of a file that stands before so many others.
fn byte_before(left: u16) -> u8
    ensures { result ≡ byte_before left }
{
    let byte = (u32::from(left) * 7 + u32::from(left / 256) * 13 + 26) % 256;
    byte as u8
}

/// The bytes of a file of this length. The last one is 1A, with which blocks are padded too.
#[tactic(auto, using(crate::proofs::ContentLemmas::content_step))]
pub fn content(alloc: Global, length: u16) -> Result<Vec<u8>, AllocError>
    ensures { IfOk result (λ bytes. bytes.items ≡ content_of length) }
{
    let mut bytes = Vec::new(alloc);
    let mut left = length;
    while left > 0 {
        left -= 1;
        bytes.push(byte_before(left))?;
    }
    Ok(bytes)
}
