//! What the program's words ask for, done.

ghost use Rattle.std.specs.Prelude.{◌≡◌, ◌≢◌, ◌≤◌, ◌⊎◌, ℕ, List, IfOk, Some, None, map, string_bytes};
ghost use Rattle.ym_words.specs.Job.{Asked, Play, asked_of};
ghost use Rattle.ym_answer.specs.Desk.{desk};
ghost use Rattle.ym_answer.specs.Page.{TellsFault, page};
ghost use Rattle.ym_command.specs.Program.{AsksFor, IsPlayed, JobGives, DoesAsked, RefusesPort, RefusesWords};

use crate::orders::{line_order_of, order_of, send_order_of};
use clap::error::ErrorKind;
use std::alloc::{AllocGlobal, Global};
use std::cell::Cell;
use std::fmt::Display;
use std::fs::{File, Files};
use std::io;
use std::io::{IsTerminal, Print, Write};
use std::net::{Net, TcpListener, TcpStream};
use std::time::Clock;
use ym_answer::CommandFault;
use ym_ends::{AtPort, OnLine};
use ym_explained::{Draw, ExplainOrder, explain_and_draw};
use ym_judged::{JudgeOrder, judge};
use ym_line::Direct;
use ym_looped::looped_session;
use ym_play::laws::a_known_script_is_played;
use ym_play::session_over;
use ym_receiving::{receive_as_asked, receive_line};
use ym_sending::{send, send_line};
use ym_streams::{Input, Output, Outputs, StreamFault, Streams};
use ym_teller::Teller;
use ym_words::{Job, JobFault, TellFlags, job_of};

/// The status after refused words.
const REFUSED: u8 = 2;

/// The status where a line could not be written.
const FAILED: u8 = 3;

/// Writes the text of refused words. The answer is their status, or that of a failed device where
/// it could not be written.
fn tell_words<E: Output, D: Display + Drop>(err: &mut E, text: D) -> u8
    ensures { ((result ≡ 2) × (E.failures err.new ≡ E.failures err.old)) ⊎ (result ≡ 3) }
{
    match err.put_text(text) {
        Ok(()) => REFUSED,
        Err(StreamFault) => FAILED,
    }
}

/// Writes the version. The answer is 0, or the status of a failed device where it could not be
/// written.
fn tell_version<O: Output, D: Display + Drop>(out: &mut O, text: D) -> u8
    ensures { ((result ≡ 0) × (O.failures out.new ≡ O.failures out.old)) ⊎ (result ≡ 3) }
{
    match out.put_text(text) {
        Ok(()) => 0,
        Err(StreamFault) => FAILED,
    }
}

/// Writes the line of a fault. The answer is its status, or that of a failed device where it could
/// not be written.
fn tell_fault<E: Output>(err: &mut E, fault: CommandFault) -> u8
    ensures { TellsFault fault (page (E.contents err.old) (E.failures err.old)) result
        (page (E.contents err.new) (E.failures err.new)) }
{
    match err.put_line(fault) {
        Ok(()) => fault.status(),
        Err(StreamFault) => FAILED,
    }
}

/// Plays a script, carried in memory.
fn play<I: Input, O: Output, E: Output>(alloc: Global, streams: &mut Streams<I, O, E>) -> u8
    ensures { JobGives Play
        (desk (I.remaining streams.old.input) (I.failures streams.old.input)
        (page (O.contents streams.old.outputs.out) (O.failures streams.old.outputs.out))
        (page (E.contents streams.old.outputs.err) (E.failures streams.old.outputs.err)))
        (Ok result)
        (desk (I.remaining streams.new.input) (I.failures streams.new.input)
        (page (O.contents streams.new.outputs.out) (O.failures streams.new.outputs.out))
        (page (E.contents streams.new.outputs.err) (E.failures streams.new.outputs.err))) }
{
    let Streams { input, outputs } = streams;
    let Outputs { out, err } = outputs;
    let mut carrier = Direct::new(alloc);
    session_over(alloc, input, out, err, &mut carrier)
}

/// How much is told, by the flags of a job.
fn tell_flags(job: &Job<'_>) -> TellFlags {
    match job {
        Job::Play | Job::Explain { .. } | Job::Judge { .. } => TellFlags {
            verbose: false,
            quiet: false,
        },
        Job::Loop { tell, .. }
        | Job::Send { tell, .. }
        | Job::Receive { tell, .. }
        | Job::SendLine { tell, .. }
        | Job::ReceiveLine { tell, .. } => *tell,
    }
}

/// Does a job. The answer is the status, unless it ends in a fault that is still to be told.
fn do_job<R, I, O, E, T>(
    rt: &R,
    alloc: Global,
    job: Job<'_>,
    streams: &mut Streams<I, O, E>,
    teller: &mut Teller<T>,
) -> Result<u8, CommandFault>
where
    R: Files<File = File>
        + Net<Listener = TcpListener, Stream = TcpStream>
        + Clock
        + io::Input
        + Print
        + AllocGlobal,
    R::Reader: IsTerminal,
    I: Input,
    O: Draw,
    E: Output,
    T: Write + Drop,
    ensures gives { JobGives (asked_of job.entry)
        (desk (I.remaining streams.old.input) (I.failures streams.old.input)
        (page (O.contents streams.old.outputs.out) (O.failures streams.old.outputs.out))
        (page (E.contents streams.old.outputs.err) (E.failures streams.old.outputs.err))) result
        (desk (I.remaining streams.new.input) (I.failures streams.new.input)
        (page (O.contents streams.new.outputs.out) (O.failures streams.new.outputs.out))
        (page (E.contents streams.new.outputs.err) (E.failures streams.new.outputs.err))) }
    ensures status { IfOk result (λ status. status ≤ 3) }
{
    match job {
        Job::Play => Ok(play(alloc, streams)),
        Job::Loop { port, .. } => looped_session(rt, port, streams, teller),
        Job::Send {
            port,
            short,
            files,
            record_path,
            ..
        } => {
            let order = send_order_of(short, files.as_slice(), record_path);
            let asked = AtPort { port, order };
            send(rt, asked, &mut streams.outputs.out, teller)
        }
        Job::Receive {
            port,
            flags,
            dir,
            record_path,
            ..
        } => {
            let order = order_of(flags, dir, record_path);
            let asked = AtPort { port, order };
            receive_as_asked(rt, asked, &mut streams.outputs, teller)
        }
        Job::SendLine {
            line,
            short,
            files,
            record_path,
            ..
        } => {
            let order = send_order_of(short, files.as_slice(), record_path);
            let asked = OnLine { line, order };
            match line {
                Some(_) => send_line(rt, asked, &mut streams.outputs.out, teller),
                None => send_line(rt, asked, &mut streams.outputs.err, teller),
            }
        }
        Job::ReceiveLine {
            line,
            flags,
            dir,
            record_path,
            ..
        } => {
            let order = line_order_of(flags, dir, record_path);
            let asked = OnLine { line, order };
            match line {
                Some(_) => receive_line(rt, asked, &mut streams.outputs.out, teller),
                None => receive_line(rt, asked, &mut streams.outputs.err, teller),
            }
        }
        Job::Explain {
            there,
            back,
            both,
            turned,
            chart,
        } => {
            let order = ExplainOrder {
                there,
                back,
                both,
                turned,
                chart,
            };
            explain_and_draw(rt, alloc, order, streams)
        }
        Job::Judge {
            peer,
            port,
            line,
            only,
            stored,
            list,
            json,
        } => {
            let order = JudgeOrder {
                peer,
                port,
                line,
                only,
                stored,
                list,
                json,
            };
            judge(rt, alloc, order, &mut streams.outputs)
        }
    }
}

/// Does what the words ask for, of which the first is the program's name, and answers the status of
/// the program: 0 where both ends have finished (of `send` and `receive` its own end), 1 where it
/// ended otherwise, 2 where the words, the script, a name, a length or the number of files is
/// refused or help was asked for, and 3 where a device failed, the connection was closed or memory
/// ran out. What ends in a fault prints one line that tells it to `err`, and words that are refused
/// the text that says how they are written. The version goes to `out`, with status 0. To somebody
/// who looks `teller` tells besides what is done and why it failed. Whether somebody looks, as the
/// words say it too, is put into `is_looked_at` before anything is done.
pub fn command<R, I, O, E, T>(
    rt: &R,
    words: Vec<String>,
    streams: &mut Streams<I, O, E>,
    teller: &mut Teller<T>,
    is_looked_at: &Cell<bool>,
) -> u8
where
    R: Files<File = File>
        + Net<Listener = TcpListener, Stream = TcpStream>
        + Clock
        + io::Input
        + Print
        + AllocGlobal,
    R::Reader: IsTerminal,
    I: Input,
    O: Draw,
    E: Output,
    T: Write + Drop,
    ensures does { DoesAsked (map string_bytes words.items)
        (desk (I.remaining streams.old.input) (I.failures streams.old.input)
        (page (O.contents streams.old.outputs.out) (O.failures streams.old.outputs.out))
        (page (E.contents streams.old.outputs.err) (E.failures streams.old.outputs.err))) result
        (desk (I.remaining streams.new.input) (I.failures streams.new.input)
        (page (O.contents streams.new.outputs.out) (O.failures streams.new.outputs.out))
        (page (E.contents streams.new.outputs.err) (E.failures streams.new.outputs.err))) }
    ensures port { RefusesPort (map string_bytes words.items)
        (desk (I.remaining streams.old.input) (I.failures streams.old.input)
        (page (O.contents streams.old.outputs.out) (O.failures streams.old.outputs.out))
        (page (E.contents streams.old.outputs.err) (E.failures streams.old.outputs.err))) result
        (desk (I.remaining streams.new.input) (I.failures streams.new.input)
        (page (O.contents streams.new.outputs.out) (O.failures streams.new.outputs.out))
        (page (E.contents streams.new.outputs.err) (E.failures streams.new.outputs.err))) }
    ensures words { RefusesWords (map string_bytes words.items)
        (desk (I.remaining streams.old.input) (I.failures streams.old.input)
        (page (O.contents streams.old.outputs.out) (O.failures streams.old.outputs.out))
        (page (E.contents streams.old.outputs.err) (E.failures streams.old.outputs.err))) result
        (desk (I.remaining streams.new.input) (I.failures streams.new.input)
        (page (O.contents streams.new.outputs.out) (O.failures streams.new.outputs.out))
        (page (E.contents streams.new.outputs.err) (E.failures streams.new.outputs.err))) }
    // Where no read and no write fails: a session that meets one has status 3.
    ensures plays { AsksFor (map string_bytes words.items) (Some Asked.Play)
        → (text before wrong : List ℕ) → I.remaining streams.old.input ≡ Some text
        → O.contents streams.old.outputs.out ≡ Some before
        → E.contents streams.old.outputs.err ≡ Some wrong → result ≢ 3
        → IsPlayed text before wrong result
        (O.contents streams.new.outputs.out) (E.contents streams.new.outputs.err) }
    ensures refused { AsksFor (map string_bytes words.items) None → (result ≡ 2) ⊎ (result ≡ 3) }
    ensures status { result ≤ 3 }
{
    a_known_script_is_played();
    let alloc = rt.alloc();
    match job_of(alloc, words.as_slice()) {
        Ok(job) => {
            let TellFlags { verbose, quiet } = tell_flags(&job);
            teller.heed(verbose, quiet);
            is_looked_at.set(teller.is_loud);
            match do_job(rt, alloc, job, streams, teller) {
                Ok(status) => status,
                Err(fault) => tell_fault(&mut streams.outputs.err, fault),
            }
        }
        Err(JobFault::Words(error)) if error.kind() == ErrorKind::DisplayVersion => {
            tell_version(&mut streams.outputs.out, error)
        }
        Err(JobFault::Words(error)) => tell_words(&mut streams.outputs.err, error),
        Err(JobFault::Value) => {
            teller.tell("--port takes a number from 1 to 65535, in digits");
            tell_fault(&mut streams.outputs.err, CommandFault::Port)
        }
        Err(JobFault::Memory) => tell_fault(&mut streams.outputs.err, CommandFault::Memory),
    }
}
