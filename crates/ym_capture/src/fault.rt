//! Why a capture cannot be read on.

use std::fmt;

/// Why a capture cannot be read on from a place.
#[derive(Clone, Copy)]
pub enum CaptureFault {
    /// It ends before the end of what begins there.
    Cut,
    /// Its packets are of a link of this number, which is none that is read.
    Link(u32),
    /// A packet states more bytes than one may have.
    Long,
    /// Not all bytes of a packet were kept, or its lengths disagree.
    Short,
    /// A packet is a part of one.
    Fragment,
    /// A packet is of a second connection.
    Second,
    /// Bytes before those of a packet are missing, or come behind them.
    Gap,
}

impl fmt::Display for CaptureFault {
    ghost use Rattle.std.specs.Prelude.{Some};
    ghost use Rattle.ym_capture.specs.CaptureWords.{capture_words};

    ghost output = { λ fault. Some (capture_words fault) };

    fn fmt<W: fmt::Write>(&self, f: &mut fmt::Formatter<W>) -> fmt::Result {
        match *self {
            CaptureFault::Cut => f.write_str("the capture ends in what begins there"),
            CaptureFault::Link(number) => write!(f, "a link of type {number} is none that is read"),
            CaptureFault::Long => f.write_str("a packet states more than 262144 bytes"),
            CaptureFault::Short => {
                f.write_str("not all bytes of the packet were kept (tcpdump -s 0 keeps them)")
            }
            CaptureFault::Fragment => f.write_str("the packet is a fragment"),
            CaptureFault::Second => f.write_str(
                "the packet is of a second connection (tcpdump -r IN -w OUT tcp port N keeps one)",
            ),
            CaptureFault::Gap => f.write_str(
                "bytes before those of the packet are missing or late",
            ),
        }
    }
}
