//! What `judge` tells beside its report.

use std::fmt;
use ym_judge::Peer;
use ym_text::{Reason, Shown};

/// What `judge` tells on standard error where it plays nothing, or no more. Its `Display` is the
/// line, without its end.
#[derive(Clone, Copy)]
pub(crate) enum JudgeMessage<'a> {
    /// This word names no kind of peer.
    NoPeer(&'a str),
    /// This word names no case of such a peer.
    NoCase(Peer, &'a str),
    /// There is no port and no line, or there are both.
    NoPlace,
    /// The folder or the file at this path cannot be looked at.
    Unseen(&'a str, Reason),
}

/// The word that names such a peer.
fn word_of(peer: Peer) -> &'static str {
    match peer {
        Peer::Sender => "sender",
        Peer::Receiver => "receiver",
    }
}

impl fmt::Display for JudgeMessage<'_> {
    fn fmt<W: fmt::Write>(&self, f: &mut fmt::Formatter<W>) -> fmt::Result {
        match *self {
            JudgeMessage::NoPeer(word) => {
                write!(f, "judge takes `sender` or `receiver`, and not '{word}'")
            }
            JudgeMessage::NoCase(peer, word) => {
                let peer = word_of(peer);
                write!(
                    f,
                    "no case of a {peer} is called '{word}'; judge {peer} --list names them"
                )
            }
            JudgeMessage::NoPlace => f.write_str("judge takes --port or --line, and one of them"),
            JudgeMessage::Unseen(path, why) => {
                let path = Shown(path);
                write!(f, "cannot look at '{path}': {why}")
            }
        }
    }
}
