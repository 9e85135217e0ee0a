//! What both ends tell of how they have ended.

use crate::told_line::LineWords;
use std::io::Write;
use ym_answer::CommandFault;
use ym_teller::Teller;
use ym_text::EndMessage;

/// Tells why an end has ended: what its state says, or else the fault of its port, also where that
/// came behind its end.
pub fn tell_end<E: Write + Drop>(
    teller: &mut Teller<E>,
    answer: &Result<u8, CommandFault>,
    words: LineWords,
    state: Option<EndMessage>,
) {
    let message = match answer {
        Err(CommandFault::Closed) => Some(words.closed),
        Err(CommandFault::Device) if state.is_none() && words.has_failed => Some(words.failed),
        _ => state,
    };
    if let Some(message) = message {
        teller.tell(message);
    }
}
