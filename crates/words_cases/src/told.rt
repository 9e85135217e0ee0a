//! Jobs in words.

use std::alloc::{AllocError, Global};
use ym_words::{Job, JobFault, ReceiveFlags, StoreFlags, TellFlags, job_of};

/// Puts a word behind a text where the flag is set.
fn push_flag(text: &mut String, flag: bool, word: &str) -> Result<(), AllocError> {
    if flag {
        text.push(' ')?;
        text.push_str(word)?;
    }
    Ok(())
}

fn push_tell(text: &mut String, tell: TellFlags) -> Result<(), AllocError> {
    push_flag(text, tell.verbose, "verbose")?;
    push_flag(text, tell.quiet, "quiet")
}

fn push_store(text: &mut String, flags: StoreFlags) -> Result<(), AllocError> {
    push_flag(text, flags.single, "single")?;
    push_flag(text, flags.no_sync, "no-sync")?;
    push_flag(text, flags.discard_parts, "discard-parts")
}

fn push_receive(text: &mut String, flags: ReceiveFlags) -> Result<(), AllocError> {
    push_store(text, flags.store)?;
    push_flag(text, flags.eager, "eager")?;
    push_flag(text, flags.keep, "keep")
}

fn push_record(text: &mut String, path: Option<&str>) -> Result<(), AllocError> {
    match path {
        Some(path) => {
            text.push_str(", recorded in ")?;
            text.push_str(path)
        }
        None => Ok(()),
    }
}

fn push_number(text: &mut String, job: &str, port: u16) -> Result<(), AllocError> {
    write!(text, "{job} {port}")
}

fn push_line(text: &mut String, job: &str, line: Option<&str>) -> Result<(), AllocError> {
    let line = line.unwrap_or("-");
    write!(text, "{job} on {line}")
}

/// Puts behind a text what follows the port or the line of a job that sends.
fn push_sending(
    text: &mut String,
    short: bool,
    files: &[&str],
    record_path: Option<&str>,
    tell: TellFlags,
) -> Result<(), AllocError> {
    push_flag(text, short, "short")?;
    push_tell(text, tell)?;
    for file in files {
        push_flag(text, true, file)?;
    }
    push_record(text, record_path)
}

/// Puts behind a text what follows the flags of a job that receives.
fn push_receiving(
    text: &mut String,
    dir: &str,
    record_path: Option<&str>,
    tell: TellFlags,
) -> Result<(), AllocError> {
    push_tell(text, tell)?;
    push_flag(text, true, dir)?;
    push_record(text, record_path)
}

fn push_ways(
    text: &mut String,
    there: Option<&str>,
    back: Option<&str>,
    both: Option<&str>,
) -> Result<(), AllocError> {
    let there = there.unwrap_or("nothing");
    let back = back.unwrap_or("nothing");
    let both = both.unwrap_or("nothing");
    write!(text, "explain {there} there, {back} back, {both} both ways")
}

fn push_chart(text: &mut String, chart: Option<&str>) -> Result<(), AllocError> {
    match chart {
        Some(chart) => write!(text, ", drawn in {chart}"),
        None => Ok(()),
    }
}

/// Puts behind a text whom a job judges, and where.
fn push_judged(
    text: &mut String,
    peer: &str,
    port: Option<&str>,
    line: Option<&str>,
) -> Result<(), AllocError> {
    let port = port.unwrap_or("nothing");
    let line = line.unwrap_or("nothing");
    write!(text, "judge {peer} port {port} line {line}")
}

/// Puts behind a text which cases are chosen, and what is stored.
fn push_chosen(
    text: &mut String,
    only: Option<&str>,
    stored: Option<&str>,
) -> Result<(), AllocError> {
    let only = only.unwrap_or("nothing");
    let stored = stored.unwrap_or("nothing");
    write!(text, " only {only} stored {stored}")
}

/// Puts a job behind a text, with its values and the flags that are set.
fn push_job(text: &mut String, job: &Job<'_>) -> Result<(), AllocError> {
    match job {
        Job::Play => text.push_str("play"),
        Job::Loop { port, tell } => {
            push_number(text, "loop", *port)?;
            push_tell(text, *tell)
        }
        Job::Send {
            port,
            short,
            files,
            record_path,
            tell,
        } => {
            push_number(text, "send", *port)?;
            push_sending(text, *short, files.as_slice(), *record_path, *tell)
        }
        Job::SendLine {
            line,
            short,
            files,
            record_path,
            tell,
        } => {
            push_line(text, "send", *line)?;
            push_sending(text, *short, files.as_slice(), *record_path, *tell)
        }
        Job::Receive {
            port,
            flags,
            dir,
            record_path,
            tell,
        } => {
            push_number(text, "receive", *port)?;
            push_receive(text, *flags)?;
            push_receiving(text, dir, *record_path, *tell)
        }
        Job::ReceiveLine {
            line,
            flags,
            dir,
            record_path,
            tell,
        } => {
            push_line(text, "receive", *line)?;
            push_store(text, *flags)?;
            push_receiving(text, dir, *record_path, *tell)
        }
        Job::Explain {
            there,
            back,
            both,
            turned,
            chart,
        } => {
            push_ways(text, *there, *back, *both)?;
            push_flag(text, *turned, "turned")?;
            push_chart(text, *chart)
        }
        Job::Judge {
            peer,
            port,
            line,
            only,
            stored,
            list,
            json,
        } => {
            push_judged(text, peer, *port, *line)?;
            push_chosen(text, *only, *stored)?;
            push_flag(text, *list, "list")?;
            push_flag(text, *json, "json")
        }
    }
}

/// Puts behind a text why words ask for nothing.
fn push_fault(text: &mut String, fault: &JobFault) -> Result<(), AllocError> {
    match fault {
        JobFault::Value => text.push_str("value"),
        JobFault::Memory => text.push_str("memory"),
        JobFault::Words(error) => {
            let status = error.exit_code();
            write!(text, "words {status}")
        }
    }
}

/// The words of a line.
fn words_of(alloc: Global, line: &str) -> Result<Vec<String>, AllocError> {
    let mut words = Vec::new(alloc);
    for word in line.split(' ') {
        words.push(String::from_str(alloc, word)?)?;
    }
    Ok(words)
}

/// Puts behind a text what the words of a line ask for.
pub fn push_told(text: &mut String, alloc: Global, line: &str) -> Result<(), AllocError> {
    let words = words_of(alloc, line)?;
    match job_of(alloc, words.as_slice()) {
        Ok(job) => push_job(text, &job),
        Err(fault) => push_fault(text, &fault),
    }
}
