//! What is sent to a receiver.

ghost use Rattle.std.specs.Prelude.{◌≡◌, Some};
ghost use Rattle.ym_judge.specs.JudgeText.{parcel_text};

use std::fmt;

/// What is sent to a receiver in a case.
#[derive(Clone, Copy, PartialEq, Eq)]
pub enum Parcel {
    /// A file of one long block and a short one.
    Usual,
    /// A file of one byte.
    OneByte,
    /// A file without bytes.
    Empty,
    /// A file that ends where a short block does.
    ShortFull,
    /// A file that ends where a long block does.
    LongFull,
    /// Two files.
    TwoFiles,
    /// Two files without bytes.
    TwoEmpty,
    /// No file: the end block alone.
    NoFiles,
    /// A file whose block 0 states no time.
    NoTime,
    /// A file under a name of 124 bytes, whose block 0 is a long one.
    LongName,
    /// A file under the longest name.
    LongestName,
    /// A file under a name with spaces.
    Spaces,
    /// A file whose block 0 is a long one without need.
    LongHeader,
    /// A file whose block 0 states no length.
    NoLength,
    /// A file under a name with folders.
    Path,
}

impl Parcel {
    /// What it is, in words.
    fn text(self) -> &'static str
        ensures { result.now ≡ parcel_text self }
    {
        match self {
            Parcel::Usual => "a file of two blocks",
            Parcel::OneByte => "a file of one byte",
            Parcel::Empty => "an empty file",
            Parcel::ShortFull => "a file of 128 bytes",
            Parcel::LongFull => "a file of 1024 bytes",
            Parcel::TwoFiles => "two files",
            Parcel::TwoEmpty => "two empty files",
            Parcel::NoFiles => "no file",
            Parcel::NoTime => "a block 0 without time",
            Parcel::LongName => "a name of 124 bytes",
            Parcel::LongestName => "a name of 255 bytes",
            Parcel::Spaces => "a name with spaces",
            Parcel::LongHeader => "a block 0 of 1024 bytes",
            Parcel::NoLength => "a block 0 without length",
            Parcel::Path => "a name with folders",
        }
    }
}

impl fmt::Display for Parcel {
    ghost output = { λ parcel. Some (parcel_text parcel) };

    fn fmt<W: fmt::Write>(&self, f: &mut fmt::Formatter<W>) -> fmt::Result {
        f.write_str(self.text())
    }
}
