//! `line_cases`: plays cases to the ends of a line, and tells what comes of each. It is a program
//! for tests.
//!
//! Standard input has a case on each line, its parts apart by ` | `. The first part says what is
//! done, and with what; the others are what comes and what is to be written. Standard output has
//! for each case its line again, and behind it what came of it.
//!
//! - `send`, `receive` and `both` run engines over ports (`ports.rt`).
//! - `rounds` plays rounds to two ends, with a run for each further part, and `needed` counts them
//!   (`rounds.rt`).
//! - `carry` hands deliveries to a line (`carries.rt`).
//! - `cut`, `blocks` and `collect` are of files (`files.rt`).
//! - `forms` prints each form of a trace (`traces.rt`).
//! - `timing` asks the machine that knows when an end waits (`timing.rt`).
//! - `each N` before a case plays it N times, with the number of each, from 0, in place of every
//!   `@`. It tells what came of the first, and how many came to the same.
//! - A line that begins with `#` says what the cases below it are about.
#![tactic(auto)]

mod carries;
mod files;
mod ports;
mod rounds;
mod spelled;
mod timing;
mod traces;
mod words;

use std::alloc::Global;
use std::io;
use words::{Unread, counted};

/// Plays a case, and puts behind the text what comes of it. The text is the caller's in all of
/// these: what a function owns costs its proof something at each place where it may return.
fn play(text: &mut String, alloc: Global, head: &str, parts: &[&str]) -> Result<(), Unread> {
    match head.split_whitespace().next().unwrap_or("#") {
        "send" => ports::send(text, alloc, head, parts),
        "receive" => ports::receive(text, alloc, head, parts),
        "both" => ports::send_and_receive(text, alloc, head, parts),
        "rounds" => rounds::play(text, alloc, head, parts),
        "needed" => rounds::count_needed(text, alloc, head),
        "carry" => carries::play(text, alloc, head, parts),
        "cut" => files::cut(text, alloc, head, parts),
        "blocks" => files::count_blocks(text, head),
        "collect" => files::collect(text, alloc, head, parts),
        "forms" => traces::push_all(text, alloc),
        "timing" => timing::ask(text, head, parts),
        "#" => Ok(()),
        _ => Err(Unread),
    }
}

/// Plays the case of a line.
fn play_line(text: &mut String, alloc: Global, line: &str) -> Result<(), Unread> {
    let parts: Vec<&str> = line.split('|').collect(alloc)?;
    let (head, parts) = parts.as_slice().split_first().ok_or(Unread)?;
    play(text, alloc, head, parts)
}

/// Plays a case with a number.
fn play_numbered(
    text: &mut String,
    alloc: Global,
    line: &str,
    number: usize,
) -> Result<(), Unread> {
    let line = words::numbered(alloc, line, number)?;
    play_line(text, alloc, line.as_str())
}

/// Whether a case with a number comes to this text.
fn comes_to(alloc: Global, line: &str, number: usize, text: &str) -> Result<bool, Unread> {
    let mut told = String::new(alloc);
    play_numbered(&mut told, alloc, line, number)?;
    Ok(told.as_str() == text)
}

/// Plays a case so many times, and tells what comes of the first, and of how many others the same.
fn play_each(text: &mut String, alloc: Global, count: usize, line: &str) -> Result<(), Unread> {
    play_numbered(text, alloc, line, 0)?;
    let mut alike = 0usize;
    for number in 0..count {
        let is_alike = comes_to(alloc, line, number, text.as_str())?;
        alike = alike.saturating_add(usize::from(is_alike));
    }
    writeln!(text, "  {alike} alike")?;
    Ok(())
}

/// Puts behind a text that is empty what comes of a line of the table.
fn push_told(text: &mut String, alloc: Global, line: &str) -> Result<(), Unread> {
    match line.strip_prefix("each ") {
        Some(rest) => match counted(rest, ' ') {
            (Some(count), rest) => play_each(text, alloc, count, rest),
            (None, _) => Err(Unread),
        },
        None => play_line(text, alloc, line),
    }
}

/// Writes a line of the table, and what comes of it.
fn answer(rt: HostRuntime, line: &str) -> io::Result<()> {
    let mut text = String::new(rt.alloc());
    if push_told(&mut text, rt.alloc(), line).is_err() {
        text.clear();
        text.push_str("  cannot be read\n")?;
    }
    print!(rt; "{line}\n{text}")
}

fn main(rt: HostRuntime) -> io::Result<()> {
    for line in rt.lines(rt.alloc()) {
        answer(rt, line?.as_str())?;
    }
    Ok(())
}
