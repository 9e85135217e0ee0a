//! Lines and ports that say why they failed.

ghost use Rattle.std.specs.Prelude.{◌≡◌};
ghost use Rattle.ym_ends.specs.ToldLine.{connection_words, terminal_words};

use std::io;
use std::io::{Read, Write};
use std::time::Clock;
use ym_eager::Eager;
use ym_host::{SocketWire, TtyFault, TtyWire};
use ym_port::{InStep, Learned, TimedPort, Wire};
use ym_record::{Append, RecordedWire};
use ym_text::{EndMessage, Reason};

/// What the faults of a line are told as.
#[derive(Clone, Copy)]
pub struct LineWords {
    /// That nothing will come any more.
    pub closed: EndMessage,
    /// That a call failed.
    pub failed: EndMessage,
    /// Whether a call failed.
    pub has_failed: bool,
}

impl LineWords {
    /// Those of a connection, by why it failed.
    pub(crate) fn of_connection(fault: Option<io::Error>) -> LineWords
        ensures { result ≡ connection_words fault }
    {
        let failed = match fault {
            None => EndMessage::LineFailed,
            Some(error) => EndMessage::LineRefused(Reason::of(&error)),
        };
        LineWords {
            closed: EndMessage::PeerClosed,
            failed,
            has_failed: fault.is_some(),
        }
    }

    /// Those of a terminal, by why it failed or hung up, and whether a call failed.
    pub(crate) fn of_terminal(fault: Option<TtyFault>, has_failed: bool) -> LineWords
        ensures { result ≡ terminal_words fault has_failed }
    {
        let failed = match fault {
            None => EndMessage::LineFailed,
            Some(TtyFault::HungUp) => EndMessage::LineHungUp,
            Some(TtyFault::Endless) => EndMessage::LineEndless,
            Some(TtyFault::System(error)) => EndMessage::LineRefused(Reason::of(&error)),
        };
        LineWords {
            closed: EndMessage::LineHungUp,
            failed,
            has_failed,
        }
    }
}

/// A line that says what its faults are told as.
pub trait ToldWire: Wire {
    /// What its faults are told as.
    fn words(&self) -> LineWords;
}

impl<R: Clock + Drop> ToldWire for SocketWire<R> {
    fn words(&self) -> LineWords {
        LineWords::of_connection(self.fault())
    }
}

impl<R: Clock + Drop, I: Read + Drop, O: Write + Drop> ToldWire for TtyWire<R, I, O> {
    fn words(&self) -> LineWords {
        LineWords::of_terminal(self.fault(), self.has_failed())
    }
}

impl<'r, W: ToldWire + Drop, C: Clock + Drop, A: Append + Drop> ToldWire
    for RecordedWire<'r, W, C, A> {
    fn words(&self) -> LineWords {
        self.wire().words()
    }
}

/// A port that says what its faults are told as.
pub trait ToldLine: Learned {
    /// What its faults are told as.
    fn words(&self) -> LineWords;
}

impl<W: ToldWire + Drop> ToldLine for TimedPort<W> {
    fn words(&self) -> LineWords {
        self.wire().words()
    }
}

impl<P: ToldLine + Drop> ToldLine for Eager<P> {
    fn words(&self) -> LineWords {
        self.port.words()
    }
}

impl<P: ToldLine + Drop> ToldLine for InStep<P> {
    fn words(&self) -> LineWords {
        self.port.words()
    }
}
