//! The text of a trace: a line for each round, and one for each end.

ghost use Rattle.std.specs.Prelude.{◌≡◌, ◌≤◌, ◌<◌, ◌+◌, ◌++◌, Some, IfOk, string_bytes};
ghost use Rattle.ym_line.specs.TraceText.{reply_text, round_line, sender_line, receiver_line, trace_text};

use crate::lines::{ReceiverLine, SenderLine};
use crate::trace::{Seen, Trace};
use std::alloc::{AllocError, Global};
use ym_frame::Reply;

/// A reply, by its names in a trace.
fn reply_words(reply: Reply) -> &'static str
    ensures { result.now ≡ reply_text reply }
{
    match reply {
        Reply::Silence => "-",
        Reply::Start => "C",
        Reply::Ack => "ACK",
        Reply::AckStart => "ACK C",
        Reply::Nak => "NAK",
        Reply::Cancel => "CAN",
    }
}

/// Puts the line of round `n` behind the text.
fn push_round(text: &mut String, n: usize, seen: &Seen) -> Result<(), AllocError>
    ensures { IfOk result (λ _.
        string_bytes text.new ≡ string_bytes text.old ++ round_line n seen.now) }
{
    let Seen {
        what,
        there,
        reply,
        back,
    } = *seen;
    let reply = reply_words(reply);
    writeln!(text, "{n} > {what} {there} < {reply} {back}")
}

/// Puts the lines of both ends behind the text.
fn push_ends(text: &mut String, trace: &Trace) -> Result<(), AllocError>
    ensures { IfOk result (λ _.
        string_bytes text.new ≡
        string_bytes text.old ++
        (sender_line trace.now.done trace.now.send ++
        receiver_line trace.now.files trace.now.recv)) }
{
    let sender = SenderLine {
        done: trace.done,
        state: trace.send,
    };
    let receiver = ReceiverLine {
        files: trace.files,
        state: trace.recv,
    };
    writeln!(text, "{sender}")?;
    writeln!(text, "{receiver}")
}

/// The text of a trace. The one string that it returns is all that it grows.
pub fn trace_text(alloc: Global, trace: &Trace) -> Result<String, AllocError>
    ensures { IfOk result (λ text. string_bytes text ≡ trace_text trace.now) }
{
    let mut text = String::new(alloc);
    for (i, seen) in trace.rounds.iter().enumerate() {
        push_round(&mut text, i + 1, seen)?;
    }
    push_ends(&mut text, trace)?;
    Ok(text)
}
