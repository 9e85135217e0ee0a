//! What is told of a connection.

ghost use Rattle.std.specs.Prelude.{◌≡◌, Some};
ghost use Rattle.ym_text.specs.Messages.{line_text, no_line};

use crate::reason::Reason;
use std::io::ErrorKind;
use std::{fmt, io};

/// What the program does to be connected, or why it is not. Its `Display` is the line that tells
/// it, without its end.
#[derive(Clone, Copy)]
pub enum LineMessage {
    /// It waits for a connection at this port of 127.0.0.1.
    Listening(u16),
    /// Somebody has connected.
    Connected,
    /// It connects to this port of 127.0.0.1.
    Connecting(u16),
    /// Somebody else listens at this port.
    InUse(u16),
    /// Nobody listens at this port.
    Refused(u16),
    /// It could not listen or connect at this port, for another reason.
    Failed(u16, Reason),
}

impl LineMessage {
    /// Why there is no connection at this port.
    pub fn of_error(port: u16, error: &io::Error) -> LineMessage
        ensures { result ≡ no_line port error.now }
    {
        match error.kind() {
            ErrorKind::AddrInUse => LineMessage::InUse(port),
            ErrorKind::ConnectionRefused => LineMessage::Refused(port),
            _ => LineMessage::Failed(port, Reason::of(error)),
        }
    }
}

impl fmt::Display for LineMessage {
    ghost output = { λ message. Some (line_text message) };

    fn fmt<W: fmt::Write>(&self, f: &mut fmt::Formatter<W>) -> fmt::Result {
        match *self {
            LineMessage::Listening(port) => write!(f, "listening on 127.0.0.1:{port}"),
            LineMessage::Connected => write!(f, "connected"),
            LineMessage::Connecting(port) => write!(f, "connecting to 127.0.0.1:{port}"),
            LineMessage::InUse(port) => write!(
                f,
                "port {port} is in use by another program: choose another one"
            ),
            LineMessage::Refused(port) => write!(
                f,
                "nobody listens on 127.0.0.1:{port}: is the receiver running?"
            ),
            LineMessage::Failed(port, why) => write!(f, "no connection at 127.0.0.1:{port}: {why}"),
        }
    }
}
