//! What the words of the command line ask for.

ghost use Rattle.std.specs.Prelude.{◌≡◌, [], IfOk, IfErr, Some, None, true, map, codes};
ghost use Rattle.std.specs.Prelude.{string_bytes, option_map};
ghost use Rattle.clap.specs.Words.{takes, fault_of, subcommand_of, rows_of, found_of, first_of};
ghost use Rattle.ym_words.specs.CommandLine.{the_app};
ghost use Rattle.ym_words.specs.PortNumber.{port_value};
ghost use Rattle.ym_words.specs.Job.{asked, asked_for, asked_of, FaultSays, IsKind};
ghost use Rattle.ym_words.specs.Job.{flag_of, store_flags_of, receive_flags_of, tell_flags_of};
ghost use Rattle.ym_words.specs.Job.{explain_of, folder_of, judge_of, peer_of};
ghost use Rattle.ym_words.specs.Job.{send_line_of, receive_line_of};
ghost use Rattle.ym_words.specs.Job.{ported_for, send_of, receive_of, recorded_of};

use crate::command::the_command;
use crate::port::port_number;
use clap::error::ErrorKind;
use clap::{ArgMatches, Error};
use std::alloc::Global;

/// How a receiver answers and stores.
#[derive(Clone, Copy)]
pub struct StoreFlags {
    /// It acknowledges the first EOT of a file.
    pub single: bool,
    /// It does not wait until a file has reached the disk.
    pub no_sync: bool,
    /// It removes parts that an earlier run left.
    pub discard_parts: bool,
}

/// The same of a receiver that takes connections, and when and how often it asks.
#[derive(Clone, Copy)]
pub struct ReceiveFlags {
    /// How it answers and stores.
    pub store: StoreFlags,
    /// It asks for the first file at once.
    pub eager: bool,
    /// It takes one connection after another.
    pub keep: bool,
}

/// How much is told on standard error besides fault lines.
#[derive(Clone, Copy)]
pub struct TellFlags {
    /// It is told also where standard error is no terminal.
    pub verbose: bool,
    /// Nothing is told, also where it is one.
    pub quiet: bool,
}

/// What the program is asked to do. Ports are from 1 to 65535, on 127.0.0.1. Who sends or receives
/// records what passes in the file at the path `record_path`, where there is one.
#[derive(Drop)]
pub enum Job<'a> {
    /// Play the session of a script from standard input.
    Play,
    /// The same, carried by a connection to itself.
    Loop {
        port: u16,
        tell: TellFlags,
    },
    /// Send files, in order, at least one; in short blocks alone where `short` says so.
    Send {
        port: u16,
        short: bool,
        files: Vec<&'a str>,
        record_path: Option<&'a str>,
        tell: TellFlags,
    },
    /// Receive files into a folder, in the way that the flags say.
    Receive {
        port: u16,
        flags: ReceiveFlags,
        dir: &'a str,
        record_path: Option<&'a str>,
        tell: TellFlags,
    },
    /// Send files as `Send` does, over the terminal at this path, or over standard input and
    /// output.
    SendLine {
        line: Option<&'a str>,
        short: bool,
        files: Vec<&'a str>,
        record_path: Option<&'a str>,
        tell: TellFlags,
    },
    /// Receive files over such a line.
    ReceiveLine {
        line: Option<&'a str>,
        flags: StoreFlags,
        dir: &'a str,
        record_path: Option<&'a str>,
        tell: TellFlags,
    },
    /// Tell what passed on a line: what the files of each way say, or a capture of both, whose ways
    /// may be turned. It is drawn too, where a file for that is named.
    Explain {
        there: Option<&'a str>,
        back: Option<&'a str>,
        both: Option<&'a str>,
        turned: bool,
        chart: Option<&'a str>,
    },
    /// Try a peer by cases: at a port, or at the terminal at a path. What these words say is read
    /// where it is done.
    Judge {
        peer: &'a str,
        port: Option<&'a str>,
        line: Option<&'a str>,
        only: Option<&'a str>,
        stored: Option<&'a str>,
        list: bool,
        json: bool,
    },
}

/// Why the words ask for nothing.
#[derive(Drop)]
pub enum JobFault {
    /// They are no words of the command line, or a request for help; clap says it.
    Words(Error),
    /// The port is no number from 1 to 65535 in decimal digits alone.
    Value,
    /// Out of memory.
    Memory,
}

/// The port of the matches: digits alone, for a number from 1 to 65535.
fn port_in(matches: &ArgMatches<'_>) -> Option<u16>
    ensures { result ≡ port_value (first_of (codes "port") (rows_of (found_of matches.now))) }
{
    match matches.get_str("port") {
        Some(text) => port_number(text),
        None => None,
    }
}

/// What the flag of this name says.
fn flag_in(matches: &ArgMatches<'_>, name: &str) -> bool
    ensures { result ≡ flag_of name.now (rows_of (found_of matches.now)) }
{
    match matches.get_str(name) {
        Some(text) => text == "true",
        None => false,
    }
}

/// What the flags say of how a receiver answers and stores.
fn store_flags_in(matches: &ArgMatches<'_>) -> StoreFlags
    ensures { result ≡ store_flags_of (rows_of (found_of matches.now)) }
{
    StoreFlags {
        single: flag_in(matches, "single"),
        no_sync: flag_in(matches, "no_sync"),
        discard_parts: flag_in(matches, "discard_parts"),
    }
}

/// What the flags of `receive` say.
fn receive_flags_in(matches: &ArgMatches<'_>) -> ReceiveFlags
    ensures { result ≡ receive_flags_of (rows_of (found_of matches.now)) }
{
    ReceiveFlags {
        store: store_flags_in(matches),
        eager: flag_in(matches, "eager"),
        keep: flag_in(matches, "keep"),
    }
}

/// What the flags say of what is told.
fn tell_flags_in(matches: &ArgMatches<'_>) -> TellFlags
    ensures { result ≡ tell_flags_of (rows_of (found_of matches.now)) }
{
    TellFlags {
        verbose: flag_in(matches, "verbose"),
        quiet: flag_in(matches, "quiet"),
    }
}

/// The file that what passes is recorded in, where one is named.
fn record_in<'a>(matches: &ArgMatches<'a>) -> Option<&'a str>
    ensures { option_map (λ r. r.now) result ≡ recorded_of (rows_of (found_of matches.now)) }
{
    matches.get_str("record")
}

/// The job of the matches of `sb`.
fn send_line_in<'a>(alloc: Global, matches: &ArgMatches<'a>) -> Result<Job<'a>, JobFault>
    ensures ok { let rows = rows_of (found_of matches.now) in
        IfOk result (λ job. send_line_of rows ≡ Some (asked_of job)) }
    ensures err { let rows = rows_of (found_of matches.now) in
        IfErr result (λ e. FaultSays e (send_line_of rows) true) }
{
    let Some(found) = matches.get_strs("files") else {
        return Err(JobFault::Value);
    };
    match Vec::from_slice(alloc, found) {
        Ok(files) => Ok(Job::SendLine {
            line: matches.get_str("line"),
            short: flag_in(matches, "short"),
            files,
            record_path: record_in(matches),
            tell: tell_flags_in(matches),
        }),
        Err(_) => Err(JobFault::Memory),
    }
}

/// The folder of `rb`: the working one, where none is named.
fn folder_in<'a>(matches: &ArgMatches<'a>) -> &'a str
    ensures { result.now ≡ folder_of (rows_of (found_of matches.now)) }
{
    match matches.get_str("dir") {
        Some(dir) => dir,
        None => ".",
    }
}

/// The job of the matches of `rb`.
fn receive_line_in<'a>(matches: &ArgMatches<'a>) -> Job<'a>
    ensures { receive_line_of (rows_of (found_of matches.now)) ≡ asked_of result }
{
    Job::ReceiveLine {
        line: matches.get_str("line"),
        flags: store_flags_in(matches),
        dir: folder_in(matches),
        record_path: record_in(matches),
        tell: tell_flags_in(matches),
    }
}

/// The job of the matches of `explain`.
fn explain_in<'a>(matches: &ArgMatches<'a>) -> Job<'a>
    ensures { explain_of (rows_of (found_of matches.now)) ≡ asked_of result }
{
    Job::Explain {
        there: matches.get_str("there"),
        back: matches.get_str("back"),
        both: matches.get_str("record"),
        turned: flag_in(matches, "turned"),
        chart: matches.get_str("chart"),
    }
}

/// What the peer does that `judge` tries: nothing, where no word says it.
fn peer_in<'a>(matches: &ArgMatches<'a>) -> &'a str
    ensures { result.now ≡ peer_of (rows_of (found_of matches.now)) }
{
    match matches.get_str("peer") {
        Some(peer) => peer,
        None => "",
    }
}

/// The job of the matches of `judge`.
fn judge_in<'a>(matches: &ArgMatches<'a>) -> Job<'a>
    ensures { judge_of (rows_of (found_of matches.now)) ≡ asked_of result }
{
    Job::Judge {
        peer: peer_in(matches),
        port: matches.get_str("port"),
        line: matches.get_str("line"),
        only: matches.get_str("only"),
        stored: matches.get_str("stored"),
        list: flag_in(matches, "list"),
        json: flag_in(matches, "json"),
    }
}

/// The job of the matches of `send`.
fn send_in<'a>(alloc: Global, port: u16, matches: &ArgMatches<'a>) -> Result<Job<'a>, JobFault>
    ensures ok { let rows = rows_of (found_of matches.now) in
        IfOk result (λ job. send_of port rows ≡ Some (asked_of job)) }
    ensures err { let rows = rows_of (found_of matches.now) in
        IfErr result (λ e. FaultSays e (send_of port rows) true) }
{
    let Some(paths) = matches.get_strs("files") else {
        return Err(JobFault::Value);
    };
    match Vec::from_slice(alloc, paths) {
        Ok(files) => Ok(Job::Send {
            port,
            short: flag_in(matches, "short"),
            files,
            record_path: record_in(matches),
            tell: tell_flags_in(matches),
        }),
        Err(_) => Err(JobFault::Memory),
    }
}

/// The job of the matches of `receive`.
fn receive_in<'a>(port: u16, matches: &ArgMatches<'a>) -> Result<Job<'a>, JobFault>
    ensures ok { let rows = rows_of (found_of matches.now) in
        IfOk result (λ job. receive_of port rows ≡ Some (asked_of job)) }
    ensures err { let rows = rows_of (found_of matches.now) in
        IfErr result (λ e. FaultSays e (receive_of port rows) true) }
{
    match matches.get_str("dir") {
        Some(dir) => Ok(Job::Receive {
            port,
            flags: receive_flags_in(matches),
            dir,
            record_path: record_in(matches),
            tell: tell_flags_in(matches),
        }),
        None => Err(JobFault::Value),
    }
}

/// The job of the matches of a subcommand with a port.
fn ported_job_for<'a>(
    alloc: Global,
    name: &str,
    matches: &ArgMatches<'a>,
) -> Result<Job<'a>, JobFault>
    ensures ok { let rows = rows_of (found_of matches.now) in IfOk result (λ job.
        ported_for (port_value (first_of (codes "port") rows)) name.now rows
        ≡ Some (asked_of job)) }
    ensures err { let rows = rows_of (found_of matches.now) in IfErr result (λ e.
        FaultSays e (ported_for (port_value (first_of (codes "port") rows)) name.now rows) true) }
{
    let Some(port) = port_in(matches) else {
        return Err(JobFault::Value);
    };
    if name == "loop" {
        return Ok(Job::Loop {
            port,
            tell: tell_flags_in(matches),
        });
    }
    if name == "send" {
        return send_in(alloc, port, matches);
    }
    if name == "receive" {
        return receive_in(port, matches);
    }
    Err(JobFault::Value)
}

/// The job of a subcommand's matches.
fn job_for<'a>(alloc: Global, name: &str, matches: &ArgMatches<'a>) -> Result<Job<'a>, JobFault>
    ensures ok { IfOk result (λ job.
        asked_for name.now (rows_of (found_of matches.now)) ≡ Some (asked_of job)) }
    ensures err { IfErr result (λ e.
        FaultSays e (asked_for name.now (rows_of (found_of matches.now))) true) }
{
    if name == "play" {
        return Ok(Job::Play);
    }
    if name == "explain" {
        return Ok(explain_in(matches));
    }
    if name == "judge" {
        return Ok(judge_in(matches));
    }
    if name == "sb" {
        return send_line_in(alloc, matches);
    }
    if name == "rb" {
        return Ok(receive_line_in(matches));
    }
    ported_job_for(alloc, name, matches)
}

/// What the words ask for. The first word is the program's name, and no further word means `play`.
pub fn job_of<'a>(alloc: Global, words: &'a [String]) -> Result<Job<'a>, JobFault>
    ensures ok { IfOk result (λ job.
        asked (subcommand_of the_app (map string_bytes words.now)) ≡ Some (asked_of job)) }
    ensures err { IfErr result (λ e.
        FaultSays e (asked (subcommand_of the_app (map string_bytes words.now)))
        (takes the_app (map string_bytes words.now))) }
    // By the rule that says how the words are wrong, if they are.
    ensures took { IfOk result (λ _. fault_of the_app (map string_bytes words.now) ≡ []) }
    ensures kinds { IfErr result (λ e. IsKind e (fault_of the_app (map string_bytes words.now))) }
{
    let Ok(command) = the_command(alloc) else {
        return Err(JobFault::Memory);
    };
    let matches = match command.try_get_matches_from(words) {
        Ok(matches) => matches,
        Err(error) => {
            if error.kind() == ErrorKind::OutOfMemory {
                return Err(JobFault::Memory);
            }
            return Err(JobFault::Words(error));
        }
    };
    match matches.subcommand() {
        Some((name, inner)) => job_for(alloc, name, inner),
        None => Ok(Job::Play),
    }
}
