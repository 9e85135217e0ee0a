//! What is told of the end of a sender.

use std::io::Write;
use ym_answer::CommandFault;
use ym_ends::{LineWords, tell_end};
use ym_link::SendState;
use ym_teller::Teller;
use ym_text::{EndMessage, FileMessage, Lately, Reason};

/// How a sender has ended, as far as it is told.
#[derive(Clone, Copy)]
pub(crate) struct SenderFinish<'a> {
    pub(crate) state: SendState,
    /// The path of the file that was under way, where one was, and why it could not be read, where
    /// it could not.
    pub(crate) path: Option<&'a str>,
    pub(crate) unread: Option<Reason>,
    /// What came of late.
    pub(crate) lately: Lately,
    /// What faults of its port are told as.
    pub(crate) words: LineWords,
}

/// Tells why a sender has ended. A file that could not be read is named.
pub(crate) fn tell_outcome<E: Write + Drop>(
    teller: &mut Teller<E>,
    answer: &Result<u8, CommandFault>,
    outcome: SenderFinish<'_>,
) {
    let SenderFinish {
        state,
        path,
        unread,
        lately,
        words,
    } = outcome;
    match (path, unread) {
        (Some(path), Some(why)) if state == SendState::SourceFailed => {
            teller.tell(FileMessage::CannotRead(path, why));
        }
        _ => {
            let message = EndMessage::of_sender(state, lately);
            tell_end(teller, answer, words, message);
        }
    }
}
