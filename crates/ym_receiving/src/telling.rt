//! What a receiver tells: why it has ended, and why it did not store a file.

use std::alloc::Global;
use std::io::Write;
use ym_answer::CommandFault;
use ym_ends::{LineWords, tell_end};
use ym_folder::{DirSink, Folder, Leftover, StoreFault, part_name};
use ym_header::HeaderFault;
use ym_link::RecvState;
use ym_teller::Teller;
use ym_text::{EndMessage, FileMessage, Lately, Reason};

/// A sink that knows why it has failed.
pub(crate) trait Explains {
    /// Why it failed for the first time, where it failed.
    fn first_fault(&self) -> Option<StoreFault>;
}

impl<D: Folder + Drop> Explains for DirSink<D> {
    fn first_fault(&self) -> Option<StoreFault> {
        DirSink::first_fault(self)
    }
}

/// What is told where a file of this name is there: its own part is, where that has the same name.
fn message_of_there<'a>(name: &'a str, part: &str) -> FileMessage<'a> {
    if name == part {
        FileMessage::IsOwnPart(name)
    } else {
        FileMessage::IsThere(name)
    }
}

/// Tells why the file of this name was not stored in a folder, as its sink says. Without memory for
/// the part's name nothing is told.
fn tell_not_stored<E: Write + Drop>(
    teller: &mut Teller<E>,
    alloc: Global,
    name: &str,
    why: Option<StoreFault>,
    leftover: Leftover,
) {
    let Ok(part) = part_name(alloc, name) else {
        return;
    };
    let part = part.as_str();
    teller.tell(match why {
        Some(StoreFault::IsThere) => message_of_there(name, part),
        Some(StoreFault::PartIsThere) => match leftover {
            Leftover::Refused => FileMessage::PartIsLeft(name, part),
            Leftover::Discarded => FileMessage::PartIsInUse(name, part),
        },
        Some(StoreFault::PartIsGone) => FileMessage::PartIsGone(name, part),
        Some(StoreFault::System(error)) => FileMessage::CannotStore(name, Reason::of(&error)),
        None => FileMessage::CannotStore(name, Reason::Other),
    });
}

/// How a receiver has ended.
#[derive(Drop)]
pub(crate) struct ReceiverFinish<'a> {
    /// Its own end.
    pub(crate) state: RecvState,
    /// The file that its sink was last given, where that is known.
    pub(crate) last: Option<&'a str>,
    /// The name that came last, where that is known.
    pub(crate) named: Option<&'a str>,
    /// Why the sink has failed, where it has.
    pub(crate) why: Option<StoreFault>,
    /// What came of late.
    pub(crate) lately: Lately,
    /// What faults of its port are told as.
    pub(crate) words: LineWords,
}

/// Tells why a receiver has ended, and, where its sink failed, why the last file was not stored.
pub(crate) fn tell_outcome<E: Write + Drop>(
    teller: &mut Teller<E>,
    alloc: Global,
    answer: &Result<u8, CommandFault>,
    outcome: ReceiverFinish<'_>,
    leftover: Leftover,
) {
    let ReceiverFinish {
        state,
        last,
        named,
        why,
        lately,
        words,
    } = outcome;
    match named {
        Some(name) if state == RecvState::BadHeader(HeaderFault::NameUnsafe) => {
            teller.tell(FileMessage::NameIsUnsafe(name));
        }
        _ => {
            let message = EndMessage::of_receiver(state, lately);
            tell_end(teller, answer, words, message);
        }
    }
    match last {
        Some(name) if state == RecvState::SinkFailed => {
            tell_not_stored(teller, alloc, name, why, leftover);
        }
        _ => (),
    }
}
