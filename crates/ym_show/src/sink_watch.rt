//! Who watches a sink.

use ym_header::Header;

/// Who watches a sink. What it does changes nothing of the sink.
pub trait SinkWatch {
    /// A file of this header is about to be opened.
    fn begins(&mut self, header: &Header);

    /// For the open file the part of this name was removed, which an earlier run left.
    fn replaced(&mut self, part: &str);

    /// So many bytes were put behind those that the open file took.
    fn added(&mut self, count: usize);

    /// The open file was committed.
    fn committed(&mut self);

    /// The sink is asked for no more: what comes behind it is told of it.
    fn ended(&mut self);
}
