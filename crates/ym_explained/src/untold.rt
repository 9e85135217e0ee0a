//! Why a capture is not told to its end.

ghost use Rattle.std.specs.Prelude.{◌≡◌, Some};
ghost use Rattle.ym_explained.specs.Explaining.{chart_unnamed_words, forms_words, too_many_words, turned_files_words, untold_words};

use std::fmt;
use ym_inspect::{CaptureFault, RecordFault};
use ym_text::Reason;

/// Why a capture is not told to its end. Its `Display` is the line that tells it, without its end.
#[derive(Clone, Copy)]
pub(crate) enum Untold<'a> {
    /// The file at this path cannot be opened.
    Closed(&'a str, Reason),
    /// What has this name cannot be read to its end, for this reason, where one is known.
    Unread(&'a str, Option<Reason>),
    /// What has this name has no end.
    Endless(&'a str),
    /// This line of what has this name is none of a record.
    NoRecord(&'a str, u64, RecordFault),
    /// This line of what has this name, the last of a record, has no end.
    Cut(&'a str, u64),
    /// What has this name is a capture of packets in the form that is not read.
    Pcapng(&'a str),
    /// What has this name cannot be read on from this byte.
    NoCapture(&'a str, u64, CaptureFault),
    /// A record and files of one way were given.
    TooMany,
    /// Files of one way were to be turned.
    TurnedFiles,
    /// The file at this path was to be turned, and is a record. It was told as it is.
    Unturned(&'a str),
    /// A chart was to go where what is told goes.
    ChartUnnamed,
    /// At this path, where a chart is to be, a file is already.
    ChartThere(&'a str),
    /// The chart cannot be written at this path.
    ChartUnwritten(&'a str, Reason),
}

/// What the lines of a record are.
fn forms() -> &'static str
    ensures { result.now ≡ forms_words }
{
    "; its lines are SECONDS > HEX or SECONDS < HEX; files of bytes go by --there and --back"
}

/// What is said where a record and files of one way are given.
fn too_many() -> &'static str
    ensures { result.now ≡ too_many_words }
{
    "a record has both ways: give it alone, or else --there and --back"
}

/// What is said where files of one way are to be turned.
fn turned_files() -> &'static str
    ensures { result.now ≡ turned_files_words }
{
    "files of bytes are not turned: swap --there and --back"
}

/// What is said where the chart is to be standard output.
fn chart_unnamed() -> &'static str
    ensures { result.now ≡ chart_unnamed_words }
{
    "standard output has what is told: name a file for the chart (./- is one called -)"
}

impl fmt::Display for Untold<'_> {
    ghost output = { λ why. Some (untold_words why) };

    fn fmt<W: fmt::Write>(&self, f: &mut fmt::Formatter<W>) -> fmt::Result {
        match *self {
            Untold::Closed(path, why) => write!(f, "cannot open '{path}': {why}"),
            Untold::Unread(name, None) => write!(f, "cannot read '{name}'"),
            Untold::Unread(name, Some(why)) => write!(f, "cannot read '{name}': {why}"),
            Untold::Endless(name) => write!(f, "'{name}' has no end"),
            Untold::NoRecord(name, number, why) => {
                let forms = forms();
                write!(f, "'{name}' is no record: line {number}: {why}{forms}")
            }
            Untold::Cut(name, number) => write!(
                f,
                "'{name}' is cut: line {number} has no end, and only what stands before it is told"
            ),
            Untold::Pcapng(name) => write!(
                f,
                "'{name}' is a pcapng capture, which is not read; editcap -F pcap IN OUT makes a \
                 pcap of it"
            ),
            Untold::NoCapture(name, position, why) => {
                write!(f, "'{name}' cannot be read on: byte {position}: {why}")
            }
            Untold::TooMany => f.write_str(too_many()),
            Untold::TurnedFiles => f.write_str(turned_files()),
            Untold::Unturned(path) => write!(
                f,
                "'{path}' is a record, which says its ways: --turned changed nothing"
            ),
            Untold::ChartUnnamed => f.write_str(chart_unnamed()),
            Untold::ChartThere(path) => {
                write!(f, "'{path}' is there already: no chart is written")
            }
            Untold::ChartUnwritten(path, why) => {
                write!(f, "cannot write the chart '{path}': {why}")
            }
        }
    }
}
