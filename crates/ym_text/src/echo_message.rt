//! What is told of a line that echoes.

ghost use Rattle.std.specs.Prelude.{◌≡◌, Some};
ghost use Rattle.ym_text.specs.Messages.{echo_text};

use std::fmt;

/// That a line sends back what is written to it, as an end tells it. Its `Display` is the line that
/// tells it, without its end.
#[derive(Clone, Copy)]
pub enum EchoMessage {
    /// A sender tells it.
    ToSender,
    /// A receiver tells it.
    ToReceiver,
}

impl EchoMessage {
    /// The line.
    fn text(self) -> &'static str
        ensures { result.now ≡ echo_text self }
    {
        match self {
            EchoMessage::ToSender => "the line echoes what is sent: is a receiver running there?",
            EchoMessage::ToReceiver => "the line echoes what is sent: is a sender running there?",
        }
    }
}

impl fmt::Display for EchoMessage {
    ghost output = { λ message. Some (echo_text message) };

    fn fmt<W: fmt::Write>(&self, f: &mut fmt::Formatter<W>) -> fmt::Result {
        f.write_str(self.text())
    }
}
