//! `words_cases`: reads command lines, and tells what each asks for. It is a program for tests.
//!
//! Standard input has a command line on each line, its words apart by one space. Standard output
//! has for each of them the line again, and behind `: ` the job that it asks for, its values and
//! the flags that are set; or `value` where its port is none, or `words` and the status where clap
//! refuses its words.
#![tactic(auto)]

mod told;

use std::io;
use told::push_told;

/// Prints a line, and what it asks for.
fn tell(rt: &HostRuntime, line: &str) -> io::Result<()> {
    let mut text = String::new(rt.alloc());
    push_told(&mut text, rt.alloc(), line)?;
    println!(rt; "{line}: {text}")
}

fn main(rt: HostRuntime) -> io::Result<()> {
    for line in rt.lines(rt.alloc()) {
        tell(&rt, line?.as_str())?;
    }
    Ok(())
}
