//! The line in memory: the record that it keeps, and a carry that fails.
//!
//! The part behind `carry` has deliveries, `there:BYTES` and `back:BYTES`. With `carry:N` in front,
//! carry number N fails.

use super::spelled::{bytes_of, in_digits};
use super::words::{Unread, number};
use std::alloc::Global;
use ym_line::{Carrier, CarryFault, Direct, Way};

/// A carry, of which a proof is told nothing, over a line of any kind.
fn carries<C: Carrier>(
    line: &mut C,
    way: Way,
    bytes: &[u8],
    into: &mut Vec<u8>,
) -> Result<(), CarryFault> {
    line.carry(way, bytes, into)
}

/// Puts behind the text each delivery that was handed on.
pub fn push_record(text: &mut String, alloc: Global, line: &Direct) -> Result<(), Unread> {
    for one in line.handed() {
        let bytes = in_digits(alloc, one.bytes.as_slice())?;
        writeln!(text, "  {:?} [{bytes}]", one.way)?;
    }
    Ok(())
}

/// The line of a case.
fn line_of(alloc: Global, head: &str) -> Direct {
    match number(head, "carry") {
        Some(at) => Direct::failing(alloc, at),
        None => Direct::new(alloc),
    }
}

/// Puts behind the text what a carry answers, and what arrived.
fn push_answer(
    text: &mut String,
    answer: Result<(), CarryFault>,
    into: &[u8],
) -> Result<(), Unread> {
    match answer {
        Ok(()) => writeln!(text, "  carried {into:?}")?,
        Err(fault) => writeln!(text, "  {fault:?}")?,
    }
    Ok(())
}

/// Hands a delivery on, and puts behind the text what arrives.
fn push_carry(
    text: &mut String,
    alloc: Global,
    line: &mut Direct,
    word: &str,
) -> Result<(), Unread> {
    let (way, bytes) = word.split_once(':').ok_or(Unread)?;
    let way = if way == "back" { Way::Back } else { Way::There };
    let bytes = bytes_of(alloc, bytes)?;
    let mut into = [9, 9, 9].to_vec(alloc)?;
    let answer = carries(line, way, bytes.as_slice(), &mut into);
    push_answer(text, answer, into.as_slice())
}

/// Hands on the deliveries of a part, and tells what arrives and what is kept of it.
fn push_carries(
    text: &mut String,
    alloc: Global,
    line: &mut Direct,
    part: &str,
) -> Result<(), Unread> {
    for word in part.split_whitespace() {
        push_carry(text, alloc, line, word)?;
    }
    push_record(text, alloc, line)
}

/// Hands on the deliveries of a case, and tells what arrives and what is kept of it.
pub fn play(text: &mut String, alloc: Global, head: &str, parts: &[&str]) -> Result<(), Unread> {
    let part = parts.first().ok_or(Unread)?;
    let mut line = line_of(alloc, head);
    push_carries(text, alloc, &mut line, part)
}
