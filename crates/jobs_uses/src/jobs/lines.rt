//! Lines of both ends and of faults, in words.

use std::alloc::AllocError;
use std::fmt::Display;
use ym_answer::CommandFault;
use ym_header::HeaderFault;
use ym_line::{ReceiverLine, SenderLine};
use ym_link::{RecvState, SendState};

/// The text of a line.
fn told<D: Display>(rt: &HostRuntime, line: &D) -> Result<String, AllocError> {
    format!(in rt.alloc(); "{line}")
}

/// Whether this is the text of a line.
fn says<D: Display>(rt: &HostRuntime, line: &D, want: &str) -> bool {
    match told(rt, line) {
        Ok(text) => text.as_str() == want,
        Err(_) => false,
    }
}

/// Whether each line of a table has the text beside it.
fn all_say<D: Display>(rt: &HostRuntime, all: &[(D, &str)]) -> bool {
    for (line, want) in all {
        if !says(rt, line, want) {
            return false;
        }
    }
    true
}

/// The lines of senders that have done three files.
static SENDERS: [(SenderLine, &str); 5] = [
    (
        SenderLine {
            done: 3,
            state: SendState::Running,
        },
        "sender done 3 running",
    ),
    (
        SenderLine {
            done: 3,
            state: SendState::Finished,
        },
        "sender done 3 finished",
    ),
    (
        SenderLine {
            done: 3,
            state: SendState::NoReply,
        },
        "sender done 3 no-reply",
    ),
    (
        SenderLine {
            done: 3,
            state: SendState::Cancelled,
        },
        "sender done 3 cancelled",
    ),
    (
        SenderLine {
            done: 3,
            state: SendState::SourceFailed,
        },
        "sender done 3 source-failed",
    ),
];

/// The lines of receivers that have stored two files.
static RECEIVERS: [(ReceiverLine, &str); 6] = [
    (
        ReceiverLine {
            files: 2,
            state: RecvState::Running,
        },
        "receiver files 2 running",
    ),
    (
        ReceiverLine {
            files: 2,
            state: RecvState::TooManyErrors,
        },
        "receiver files 2 too-many-errors",
    ),
    (
        ReceiverLine {
            files: 2,
            state: RecvState::OutOfStep,
        },
        "receiver files 2 out-of-step",
    ),
    (
        ReceiverLine {
            files: 2,
            state: RecvState::BadHeader(HeaderFault::NoLength),
        },
        "receiver files 2 bad-header no-length",
    ),
    (
        ReceiverLine {
            files: 2,
            state: RecvState::TooManyFiles,
        },
        "receiver files 2 too-many-files",
    ),
    (
        ReceiverLine {
            files: 2,
            state: RecvState::SinkFailed,
        },
        "receiver files 2 sink-failed",
    ),
];

#[test]
fn lines_in_words(rt: HostRuntime) {
    assert!(rt; all_say(&rt, &SENDERS));
    assert!(rt; all_say(&rt, &RECEIVERS));
}

static FAULTS: [(CommandFault, &str); 7] = [
    (CommandFault::Port, "fault: port"),
    (CommandFault::Name, "fault: name"),
    (CommandFault::Length, "fault: length"),
    (CommandFault::TooManyFiles, "fault: too many files"),
    (CommandFault::Closed, "fault: closed"),
    (CommandFault::Device, "fault: device"),
    (CommandFault::Memory, "fault: memory"),
];

#[test]
fn fault_lines(rt: HostRuntime) {
    assert!(rt; all_say(&rt, &FAULTS));
}
