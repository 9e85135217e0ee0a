//! `port_cases`: plays what a line did, with its moments, to an end over the program's port, and
//! tells what comes of it. It is a program for tests.
//!
//! Standard input has a session on each line, in two parts apart by ` | `. The first says whose it
//! is: `send [short] NAME=BYTES ..` or `receive [once]`, where `short` is for short blocks alone,
//! and `once` for a receiver that confirms once. The second has what the line did (`recorded.rt`).
//! Bytes are hexadecimal digits, and `-` is none.
//!
//! Standard output has for each line that line again, and behind it how the end returned, its state
//! and its count of files, what it wrote, and the files that it keeps. A line that begins with `#`
//! says what those below it are about.
#![tactic(auto)]

mod recorded;
mod sessions;

use std::alloc::{AllocError, AllocFailed, Global};
use std::io;

/// A line that cannot be read, or want of memory.
#[derive(Clone, Copy)]
pub struct Unread;

impl From<AllocError> for Unread {
    fn from(_: AllocError) -> Unread {
        Unread
    }
}

impl<T: Drop> From<AllocFailed<T>> for Unread {
    fn from(_: AllocFailed<T>) -> Unread {
        Unread
    }
}

/// Plays a session, and puts behind the text what comes of it.
fn push_played(text: &mut String, alloc: Global, line: &str) -> Result<(), Unread> {
    let (head, did) = line.split_once('|').ok_or(Unread)?;
    match head.split_whitespace().next() {
        Some("send") => sessions::push_send(text, alloc, head, did),
        Some("receive") => sessions::push_receive(text, alloc, head, did),
        _ => Err(Unread),
    }
}

/// What comes of a line.
fn told(alloc: Global, line: &str) -> Result<String, AllocError> {
    let mut text = String::new(alloc);
    if !line.starts_with('#') && push_played(&mut text, alloc, line).is_err() {
        text.clear();
        text.push_str("  cannot be read\n")?;
    }
    Ok(text)
}

/// Prints a line, and what comes of it.
fn tell(rt: &HostRuntime, line: &str) -> io::Result<()> {
    let text = told(rt.alloc(), line)?;
    print!(rt; "{line}\n{text}")
}

fn main(rt: HostRuntime) -> io::Result<()> {
    for line in rt.lines(rt.alloc()) {
        tell(&rt, line?.as_str())?;
    }
    Ok(())
}
