//! Rounds that are played to two ends with a line between them.
//!
//! Each part behind `rounds` is a run of the same two ends: `whole`, `lost` (both ways), `mute`
//! (the reply is lost), or `there:BYTES`, `back:BYTES` and `both:BYTES`, where these bytes arrive
//! in place of what was sent; `Nx` before one of them stands for N of it. In front stand the words
//! of `send` and `receive`, and
//!
//! - `fill:N`, where fill number N of a source fails, `call:N` for a call of the sink, and
//!   `carry:N` for a carry of the line;
//! - `single`, where each round is played alone;
//! - `record`, which tells each delivery that was handed on.

use super::carries::push_record;
use super::ports::{batch_of, sender_of, shape_of};
use super::spelled::bytes_of;
use super::words::{Unread, counted, has, number};
use std::alloc::Global;
use ym_file::{MemSink, Sink, Source};
use ym_frame::Bytes;
use ym_line::{
    Carrier, Delivery, Direct, LineFault, Round, Trace, round, run, trace_text, whole_rounds_needed,
};
use ym_link::{Confirm, Received, Receiver, ReceiverInto, SendFile, Sender, SenderFrom};

/// Two ends, and the line between them.
#[derive(Drop)]
struct Ends {
    sender: Sender,
    receiver: Receiver,
    line: Direct,
}

fn confirm_of(head: &str) -> Confirm {
    if has(head, "once") {
        Confirm::Once
    } else {
        Confirm::Twice
    }
}

fn receiver_of(alloc: Global, head: &str) -> Receiver {
    let sink = MemSink::new(alloc, number(head, "call"));
    Receiver::with_sink(alloc, sink, confirm_of(head))
}

fn line_of(alloc: Global, head: &str) -> Direct {
    Direct::failing(alloc, number(head, "carry").unwrap_or(0))
}

fn ends_of(alloc: Global, head: &str) -> Result<Ends, Unread> {
    Ok(Ends {
        sender: sender_of(alloc, head)?,
        receiver: receiver_of(alloc, head),
        line: line_of(alloc, head),
    })
}

/// A delivery that is whole, or that is damaged to these bytes.
fn delivery_of(alloc: Global, is_whole: bool, bytes: &str) -> Result<Delivery, Unread> {
    if is_whole {
        return Ok(Delivery::Whole);
    }
    Ok(Delivery::Damaged(Bytes::new(bytes_of(alloc, bytes)?)))
}

/// A round whose deliveries are damaged.
fn damaged_round(alloc: Global, word: &str) -> Result<Round, Unread> {
    let (ways, bytes) = word.split_once(':').ok_or(Unread)?;
    let there = delivery_of(alloc, ways == "back", bytes)?;
    Ok(Round {
        there,
        back: delivery_of(alloc, ways == "there", bytes)?,
    })
}

fn round_of(alloc: Global, word: &str) -> Result<Round, Unread> {
    let (there, back) = match word {
        "whole" => (Delivery::Whole, Delivery::Whole),
        "lost" => (Delivery::Lost, Delivery::Lost),
        "mute" => (Delivery::Whole, Delivery::Lost),
        _ => return damaged_round(alloc, word),
    };
    Ok(Round { there, back })
}

fn rounds_of(alloc: Global, part: &str) -> Result<Vec<Round>, Unread> {
    let mut rounds = Vec::new(alloc);
    for word in part.split_whitespace() {
        let (count, word) = counted(word, 'x');
        for _ in 0..count.unwrap_or(1) {
            rounds.push(round_of(alloc, word)?)?;
        }
    }
    Ok(rounds)
}

// Rounds are played to ends over files of any kind, and over a line of any kind: a call is dear to
// prove where it is made of one kind. These functions tell a proof nothing, and so cost it little.

/// Plays rounds.
fn run_over<S: Source, K: Sink, C: Carrier>(
    alloc: Global,
    sender: &mut SenderFrom<S>,
    receiver: &mut ReceiverInto<K>,
    line: &mut C,
    rounds: &[Round],
) -> Result<Trace, LineFault> {
    run(alloc, sender, receiver, rounds, line)
}

/// Plays one round.
fn round_over<S: Source, K: Sink, C: Carrier>(
    alloc: Global,
    sender: &mut SenderFrom<S>,
    receiver: &mut ReceiverInto<K>,
    line: &mut C,
    one: &Round,
) -> Result<(), LineFault> {
    match round(alloc, sender, receiver, one, line) {
        Ok(_) => Ok(()),
        Err(fault) => Err(fault),
    }
}

/// Plays rounds to these ends.
fn run_all(alloc: Global, ends: &mut Ends, rounds: &[Round]) -> Result<Trace, LineFault> {
    let Ends {
        sender,
        receiver,
        line,
    } = ends;
    run_over(alloc, sender, receiver, line, rounds)
}

/// Plays one round to these ends.
fn run_one(alloc: Global, ends: &mut Ends, one: &Round) -> Result<(), LineFault> {
    let Ends {
        sender,
        receiver,
        line,
    } = ends;
    round_over(alloc, sender, receiver, line, one)
}

/// Puts behind the text what comes of a run.
fn push_run(
    text: &mut String,
    alloc: Global,
    ends: &mut Ends,
    rounds: &[Round],
) -> Result<(), Unread> {
    match run_all(alloc, ends, rounds) {
        Ok(trace) => text.push_str(trace_text(alloc, &trace)?.as_str())?,
        Err(fault) => writeln!(text, "  {fault:?} behind {}", ends.line.handed().len())?,
    }
    Ok(())
}

/// Puts behind the text what each round answers that is played alone.
fn push_each(
    text: &mut String,
    alloc: Global,
    ends: &mut Ends,
    rounds: &[Round],
) -> Result<(), Unread> {
    for one in rounds {
        let answer = run_one(alloc, ends, one);
        writeln!(text, "  {answer:?}")?;
    }
    Ok(())
}

/// Whether a file that a receiver keeps is this one.
fn is_as_sent(file: &Received, sent: &SendFile) -> bool {
    file.name() == sent.header().name() && file.bytes() == sent.bytes()
}

/// Whether each file that a receiver keeps is the file that was sent in its place.
fn are_as_sent(files: &[Received], batch: &[SendFile]) -> bool {
    for (file, sent) in files.iter().zip(batch) {
        if !is_as_sent(file, sent) {
            return false;
        }
    }
    true
}

/// Puts behind the text what was handed on and is kept.
fn push_ends(text: &mut String, alloc: Global, head: &str, ends: &Ends) -> Result<(), Unread> {
    let batch = batch_of(alloc, head)?;
    let files = ends.receiver.files();
    let as_sent = are_as_sent(files, batch.as_slice());
    let (handed, kept) = (ends.line.handed().len(), files.len());
    writeln!(text, "  handed on {handed}, kept {kept} as sent: {as_sent}")?;
    if has(head, "record") {
        push_record(text, alloc, &ends.line)?;
    }
    Ok(())
}

/// Plays the rounds of a part, and tells what comes of them.
fn push_part(
    text: &mut String,
    alloc: Global,
    head: &str,
    part: &str,
    ends: &mut Ends,
) -> Result<(), Unread> {
    let rounds = rounds_of(alloc, part)?;
    if has(head, "single") {
        push_each(text, alloc, ends, rounds.as_slice())
    } else {
        push_run(text, alloc, ends, rounds.as_slice())
    }
}

/// Plays the runs of a case to these ends, and tells what comes of them.
fn push_parts(
    text: &mut String,
    alloc: Global,
    head: &str,
    parts: &[&str],
    ends: &mut Ends,
) -> Result<(), Unread> {
    for part in parts {
        push_part(text, alloc, head, part, ends)?;
    }
    push_ends(text, alloc, head, ends)
}

/// Plays the runs of a case, and tells what comes of them.
pub fn play(text: &mut String, alloc: Global, head: &str, parts: &[&str]) -> Result<(), Unread> {
    let mut ends = ends_of(alloc, head)?;
    push_parts(text, alloc, head, parts, &mut ends)
}

/// Tells how many whole rounds the files of a case need.
pub fn count_needed(text: &mut String, alloc: Global, head: &str) -> Result<(), Unread> {
    let batch = batch_of(alloc, head)?;
    if batch.len() > 65_535 {
        return Err(Unread);
    }
    let needed = whole_rounds_needed(batch.as_slice(), shape_of(head), confirm_of(head));
    writeln!(text, "  {needed} whole rounds")?;
    Ok(())
}
