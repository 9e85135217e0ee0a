//! The texts of traces: each form of a round, and each end of either end.

use super::words::Unread;
use std::alloc::Global;
use ym_frame::Reply;
use ym_header::HeaderFault;
use ym_line::{How, Seen, Trace, What, trace_text};
use ym_link::{RecvState, SendState};

/// Puts a trace behind the text.
fn push_trace(text: &mut String, alloc: Global, trace: &Trace) -> Result<(), Unread> {
    text.push_str(trace_text(alloc, trace)?.as_str())?;
    Ok(())
}

/// Puts a trace without rounds behind the text, of a sender that reports so many files and a
/// receiver that has so many.
fn push_ends(
    text: &mut String,
    alloc: Global,
    sender: (usize, SendState),
    receiver: (usize, RecvState),
) -> Result<(), Unread> {
    let (done, send) = sender;
    let (files, recv) = receiver;
    let rounds = Vec::new(alloc);
    let trace = Trace {
        rounds,
        done,
        send,
        files,
        recv,
    };
    push_trace(text, alloc, &trace)
}

fn push_forms(text: &mut String, alloc: Global) -> Result<(), Unread> {
    let seen = |what: What, there: How, reply: Reply, back: How| Seen {
        what,
        there,
        reply,
        back,
    };
    let long = What::Block {
        number: 255,
        length: 1024,
    };
    let short = What::Block {
        number: 0,
        length: 128,
    };
    let rounds = vec![in alloc;
        seen(What::Nothing, How::Whole, Reply::Start, How::Whole),
        seen(short, How::Whole, Reply::AckStart, How::Damaged),
        seen(long, How::Lost, Reply::Ack, How::Lost),
        seen(What::Eot, How::Damaged, Reply::Nak, How::Whole),
        seen(What::Can, How::Whole, Reply::Silence, How::Whole),
        seen(What::Nothing, How::Whole, Reply::Cancel, How::Whole),
    ]?;
    let trace = Trace {
        rounds,
        done: 12,
        send: SendState::Running,
        files: 13,
        recv: RecvState::Running,
    };
    push_trace(text, alloc, &trace)
}

const SENDERS: [SendState; 5] = [
    SendState::Running,
    SendState::Finished,
    SendState::NoReply,
    SendState::Cancelled,
    SendState::SourceFailed,
];

const RECEIVERS: [RecvState; 13] = [
    RecvState::Running,
    RecvState::Finished,
    RecvState::TooManyErrors,
    RecvState::Cancelled,
    RecvState::OutOfStep,
    RecvState::BadHeader(HeaderFault::NameEmpty),
    RecvState::BadHeader(HeaderFault::NameLong),
    RecvState::BadHeader(HeaderFault::NameUnsafe),
    RecvState::BadHeader(HeaderFault::NoLength),
    RecvState::BadHeader(HeaderFault::LengthLarge),
    RecvState::BadHeader(HeaderFault::Memory),
    RecvState::TooManyFiles,
    RecvState::SinkFailed,
];

/// The text of each form of a round, and of each end of either end.
pub fn push_all(text: &mut String, alloc: Global) -> Result<(), Unread> {
    push_forms(text, alloc)?;
    for state in SENDERS {
        push_ends(text, alloc, (1, state), (0, RecvState::Running))?;
    }
    for state in RECEIVERS {
        push_ends(text, alloc, (0, SendState::Running), (7, state))?;
    }
    Ok(())
}
