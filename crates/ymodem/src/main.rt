//! `ymodem`: YMODEM batch file transfer. It plays scripts of sessions, in memory or over a
//! connection to itself, and sends and receives files over a connection or a serial line.
#![tactic(auto)]

mod told;

use std::cell::Cell;
use std::env::{Env, FillError};
use std::fs::{File, Files};
use std::io::{BufWriter, ErrorKind, IsTerminal, Stderr, Write};
use std::process::ExitCode;
use std::{env, fs, io, str};
use told::{Faults, ToldInput, ToldOutput};
use ym_command::{Charted, Draw, Outputs, Streams, command};
use ym_streams::{Input, Output};
use ym_teller::{Look, Teller};
use ym_text::ShownOut;

/// The status where a word is not UTF-8.
const REFUSED: u8 = 2;

/// The status where memory ran out before the words were read.
const FAILED: u8 = 3;

/// So many bytes of a word are looked at where one is not UTF-8.
const LOOKED_AT: usize = 4096;

/// The words of the command line, the program's name first.
fn words(rt: &HostRuntime) -> io::Result<Vec<String>> {
    let words: Vec<String> = env::args(rt)?.collect(rt.alloc())?;
    Ok(words)
}

/// The number of the first word that is not UTF-8; the program's name has number 0. A word with
/// more bytes than are looked at is passed over.
fn odd_word(rt: &HostRuntime) -> Option<usize> {
    let mut buf = [0; LOOKED_AT];
    for number in 0..usize::MAX {
        match rt.arg(number, &mut buf) {
            Ok(count) if str::from_utf8(&buf[..count]).is_err() => return Some(number),
            Ok(_) | Err(FillError::TooLong) => {}
            Err(FillError::NotPresent) => return None,
        }
    }
    None
}

/// Tells that a word is not UTF-8, most often a file's name, and which. The answer is the status.
fn tell_odd_word(rt: &HostRuntime) -> u8 {
    let _ = match odd_word(rt) {
        Some(number) => eprintln!(rt;
            "error: word {number} is not UTF-8: give the file another name, or a link to it"
        ),
        None => rt.eprintln("error: a word is not UTF-8"),
    };
    REFUSED
}

/// How many cells a line of the terminal has, where the variable COLUMNS says it. No terminal has
/// none: some programs set it to 0 where they do not know.
fn columns(rt: &HostRuntime) -> Option<usize> {
    match env::var(rt, "COLUMNS") {
        Ok(text) => text
            .as_str()
            .parse::<usize>()
            .ok()
            .filter(|cells| *cells > 0),
        Err(_) => None,
    }
}

/// Whether the terminal knows escapes: one that has no name, or is named dumb, may show them as
/// they are.
fn is_plain(rt: &HostRuntime) -> bool {
    match env::var(rt, "TERM") {
        Ok(name) => matches!(name.as_str(), "" | "dumb"),
        Err(_) => true,
    }
}

/// Where somebody looks. A line shows one cell less than the terminal has, so that the cursor stays
/// in it. Where nothing says how many it has it counts as 80, and is asked to cut what is longer.
fn look(rt: &HostRuntime) -> Look {
    let told = columns(rt);
    Look {
        at_err: rt.stderr().is_terminal(),
        columns: told.unwrap_or(80).saturating_sub(1),
        is_exact: told.is_some() || is_plain(rt),
    }
}

/// What is read from standard input where these are all the words.
fn awaited(words: &[String]) -> Option<&'static str> {
    match words {
        [] | [_] => Some(
            "reading a script, to its end (Ctrl-D); `ymodem --help` tells what else there is",
        ),
        [_, job] => match job.as_str() {
            "play" => Some("reading a script, to its end (Ctrl-D)"),
            "explain" => Some("reading a record, to its end (Ctrl-D); else name one"),
            _ => None,
        },
        _ => None,
    }
}

/// Tells somebody who gave no file at a terminal what is read there.
fn greet<E: Write + Drop>(rt: &HostRuntime, words: &[String], teller: &mut Teller<E>) {
    match awaited(words) {
        Some(text) if rt.stdin().is_terminal() => teller.tell(text),
        _ => (),
    }
}

/// Does what the words ask for, or tells why there are none. The answer is the status. What the
/// words say of who looks is put where the streams find it.
fn answer<I, O, E, T>(
    rt: &HostRuntime,
    mut streams: Streams<I, O, E>,
    mut teller: Teller<T>,
    is_looked_at: &Cell<bool>,
) -> u8
where
    I: Input + Drop,
    O: Output + Draw + Drop,
    E: Output + Drop,
    T: Write + Drop,
{
    let status = match words(rt) {
        Ok(words) => {
            greet(rt, words.as_slice(), &mut teller);
            command(rt, words, &mut streams, &mut teller, is_looked_at)
        }
        Err(error) if error.kind() == ErrorKind::InvalidData => tell_odd_word(rt),
        Err(_) => tell_want_of_memory(rt),
    };
    // What could not be written is tried once more, and is not told again.
    is_looked_at.set(false);
    status
}

/// Tells that there is no memory to begin with. The answer is the status.
fn tell_want_of_memory(rt: &HostRuntime) -> u8 {
    let _ = rt.eprintln("fault: memory");
    FAILED
}

/// What tells why a stream failed, as long as somebody looks.
fn faults_of<'a>(rt: &HostRuntime, is_looked_at: &'a Cell<bool>) -> Faults<'a, Stderr> {
    Faults {
        err: rt.stderr(),
        is_looked_at,
    }
}

/// Does what the words ask for, over the program's own streams, where this is its output.
fn run_over<O: Write + Drop>(
    rt: &HostRuntime,
    look: Look,
    out: O,
    is_looked_at: &Cell<bool>,
) -> u8 {
    let shown = ShownOut::new(rt.alloc(), out, rt.stdout().is_terminal());
    let streams = Streams {
        input: ToldInput {
            input: rt.stdin(),
            faults: faults_of(rt, is_looked_at),
        },
        outputs: Outputs {
            out: Charted::new(rt.alloc(), shown),
            err: ShownOut::new(rt.alloc(), rt.stderr(), look.at_err),
        },
    };
    answer(rt, streams, Teller::new(rt.stderr(), look), is_looked_at)
}

/// Does what the words ask for. Each line of the output is one write, so that several programs can
/// write into one log.
fn run(rt: &HostRuntime) -> u8 {
    let look = look(rt);
    let is_looked_at = Cell::new(look.at_err);
    let told = ToldOutput {
        out: rt.stdout(),
        faults: faults_of(rt, &is_looked_at),
    };
    match BufWriter::new(rt.alloc(), told) {
        Ok(out) => run_over(rt, look, out, &is_looked_at),
        Err(_) => tell_want_of_memory(rt),
    }
}

/// What keeps the descriptor of a standard stream from being another's, where that is closed.
///
/// The system gives a file that is opened the lowest number that is free. So a line, or a file that
/// is stored, would be that stream, and what is told would be written there. The stand-in is open
/// for the other way alone: so the stream fails, as a closed one does.
fn stand_in<R: Files<File = File>>(rt: &R, stream: &str, is_output: bool) -> Option<File> {
    match fs::metadata(rt, stream) {
        Ok(_) => None,
        Err(_) => File::options()
            .read(is_output)
            .write(!is_output)
            .open(rt, "/dev/null")
            .ok(),
    }
}

/// Does what the words ask for. The standard streams are looked at before anything is opened, in
/// their order.
fn main(rt: HostRuntime) -> ExitCode {
    let _input = stand_in(&rt, "/proc/self/fd/0", false);
    let _out = stand_in(&rt, "/proc/self/fd/1", true);
    let _err = stand_in(&rt, "/proc/self/fd/2", true);
    ExitCode::from(run(&rt))
}
