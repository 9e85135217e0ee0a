//! The ends of `send` and `receive` over a port that plays events: what is printed, what is
//! answered, and which of several faults is told. The calls stand in functions that tell a proof
//! nothing, so that a test costs it little.

ghost use Rattle.std.specs.Prelude.{IfOk};
ghost use Rattle.ym_file.specs.Kept.{IsNew};
ghost use Rattle.ym_folder.specs.DirSink.{kept_of};

use super::frames::Frames;
use std::alloc::{AllocError, Global};
use std::io::{ErrorKind, Write};
use std::path::PathBuf;
use std::test::Fail;
use std::{env, fs, io, process};
use ym_answer::CommandFault;
use ym_file::{MemSource, Shape, Source};
use ym_folder::{DirSink, Durability, Folder, Leftover};
use ym_frame::Bytes;
use ym_header::Stamp;
use ym_host::SystemFolder;
use ym_link::{Confirm, Event, Port, ReceiverInto, ScriptPort, SendFile, SenderFrom};
use ym_receiving::{Store, receive_batch};
use ym_sending::send_batch;
use ym_streams::Output;

/// An output that keeps what is written, or fails at each write.
#[derive(Drop)]
struct Page {
    text: Vec<u8>,
    is_broken: bool,
}

impl Write for Page {
    fn write(&mut self, buf: &[u8]) -> io::Result<usize> {
        if self.is_broken {
            return Err(io::Error::from(ErrorKind::BrokenPipe));
        }
        self.text.extend_from_slice(buf)?;
        Ok(buf.len())
    }

    fn flush(&mut self) -> io::Result<()> {
        Ok(())
    }
}

/// What comes to an end, and whether its output fails.
#[derive(Clone, Copy)]
struct Scene<'a> {
    pieces: &'a [&'a [u8]],
    is_broken: bool,
}

impl<'a> Scene<'a> {
    /// With an output that takes what is printed.
    fn whole(pieces: &'a [&'a [u8]]) -> Scene<'a> {
        Scene {
            pieces,
            is_broken: false,
        }
    }

    /// With an output that fails.
    fn broken(pieces: &'a [&'a [u8]]) -> Scene<'a> {
        Scene {
            pieces,
            is_broken: true,
        }
    }

    /// A port to which the pieces come, one behind the other.
    fn port(self, alloc: Global) -> Result<ScriptPort, AllocError> {
        let mut events = Vec::new(alloc);
        for piece in self.pieces {
            let bytes = Vec::from_slice(alloc, piece)?;
            events.push(Event::Piece(Bytes::new(bytes)))?;
        }
        Ok(ScriptPort::new(alloc, events, None))
    }

    /// The output, with nothing in it.
    fn page(self, alloc: Global) -> Page {
        Page {
            text: Vec::new(alloc),
            is_broken: self.is_broken,
        }
    }
}

/// A sender of the file `a`, which has no bytes.
fn sender_of(alloc: Global) -> Option<SenderFrom<MemSource>> {
    let Ok(file) = SendFile::new(alloc, "a", Vec::new(alloc), Stamp::Nothing) else {
        return None;
    };
    let mut batch = Vec::new(alloc);
    if batch.push(file).is_err() {
        return None;
    }
    match SenderFrom::new(batch, Shape::Mixed) {
        Ok(sender) => Some(sender),
        Err(_) => None,
    }
}

/// What a sender of any files answers over any port. What is tested is called in generic functions
/// such as this one, which tell a proof nothing.
fn sent<P: Port, S: Source, O: Output>(
    port: &mut P,
    sender: &mut SenderFrom<S>,
    out: &mut O,
) -> Result<u8, CommandFault> {
    send_batch(port, sender, out)
}

/// Whether a sender answers and prints this over a port.
fn answers(
    mut port: ScriptPort,
    mut sender: SenderFrom<MemSource>,
    mut out: Page,
    want: Result<u8, CommandFault>,
    text: &str,
) -> bool {
    let answer = sent(&mut port, &mut sender, &mut out);
    answer == want && out.text.as_slice() == text.as_bytes()
}

/// Whether a sender of the file `a` answers and prints this.
fn sends(alloc: Global, scene: Scene<'_>, want: Result<u8, CommandFault>, text: &str) -> bool {
    match (scene.port(alloc), sender_of(alloc)) {
        (Ok(port), Some(sender)) => answers(port, sender, scene.page(alloc), want, text),
        _ => false,
    }
}

/// The replies to a sender of a file without bytes.
const ALL: &[&[u8]] = &[b"C", b"\x06", b"C", b"\x06C", b"\x06"];

/// All of them but the last.
const NO_LAST: &[&[u8]] = &[b"C", b"\x06", b"C", b"\x06C"];

/// The first two of them.
const PREFIX: &[&[u8]] = &[b"C", b"\x06"];

/// The other end cancels.
const CANCELS: &[&[u8]] = &[b"\x18\x18"];

/// What comes to a sender, whether its output fails, what it answers, and what it prints.
type Sent = (
    &'static [&'static [u8]],
    bool,
    Result<u8, CommandFault>,
    &'static str,
);

/// Whether senders of the file `a` answer and print this.
fn all_send(alloc: Global, all: &[Sent]) -> bool {
    for (pieces, is_broken, want, text) in all {
        let scene = Scene {
            pieces: *pieces,
            is_broken: *is_broken,
        };
        if !sends(alloc, scene, *want, text) {
            return false;
        }
    }
    true
}

static SENT: [Sent; 4] = [
    (ALL, false, Ok(0), "sender done 1 finished\n"),
    (
        NO_LAST,
        false,
        Err(CommandFault::Closed),
        "sender done 1 running\n",
    ),
    (
        PREFIX,
        false,
        Err(CommandFault::Closed),
        "sender done 0 running\n",
    ),
    (CANCELS, false, Ok(1), "sender done 0 cancelled\n"),
];

#[test]
fn a_sender_is_told(rt: HostRuntime) {
    assert!(rt; all_send(rt.alloc(), &SENT));
}

/// The fault of the engine before that of the output, and that of the output before what the end
/// says.
static SENT_BROKEN: [Sent; 3] = [
    (PREFIX, true, Err(CommandFault::Closed), ""),
    (ALL, true, Err(CommandFault::Device), ""),
    (CANCELS, true, Err(CommandFault::Device), ""),
];

#[test]
fn of_the_faults_of_a_sender_one_is_told(rt: HostRuntime) {
    assert!(rt; all_send(rt.alloc(), &SENT_BROKEN));
}

/// A new folder of this name.
fn folder(rt: &HostRuntime, name: &str) -> io::Result<PathBuf> {
    let id = process::id(rt.process());
    let name = format!(in rt.alloc(); "ymodem-{id}-{name}")?;
    let path = env::temp_dir(rt)?.join(rt.alloc(), name.as_str())?;
    fs::create_dir(rt, &path)?;
    Ok(path)
}

/// A sink that stores files in the folder at this path.
fn sink_in<D: Folder + Drop>(
    folder: D,
    alloc: Global,
    dir: &PathBuf,
) -> Result<DirSink<D>, AllocError>
    ensures { IfOk result (λ sink. IsNew (kept_of sink)) }
{
    let path = dir.as_str();
    DirSink::new(folder, alloc, path, Durability::System, Leftover::Refused)
}

/// How a receiver ends: what it answers and prints, and how many files it has stored.
#[derive(Clone, Copy)]
struct End<'a> {
    answer: Result<u8, CommandFault>,
    text: &'a str,
    files: usize,
}

/// Whether a receiver over any port answers so, and has stored so many files.
fn has_received<P: Port, K: Store + Drop, O: Output>(
    port: &mut P,
    receiver: ReceiverInto<K>,
    out: &mut O,
    want: End<'_>,
) -> bool {
    let (sink, _state, answer) = receive_batch(port, receiver, out);
    answer == want.answer && sink.headers().len() == want.files
}

/// Whether a receiver into this new sink ends so.
fn ends_so<K: Store + Drop>(
    alloc: Global,
    mut port: ScriptPort,
    sink: K,
    mut out: Page,
    want: End<'_>,
) -> bool
    requires { IsNew (K.kept sink) }
{
    let receiver = ReceiverInto::with_sink(alloc, sink, Confirm::Twice);
    let has_received = has_received(&mut port, receiver, &mut out, want);
    has_received && out.text.as_slice() == want.text.as_bytes()
}

/// Whether a receiver into the folder at this path ends so.
fn is_received_in<D: Folder + Drop>(
    folder: D,
    alloc: Global,
    dir: &PathBuf,
    scene: Scene<'_>,
    want: End<'_>,
) -> bool {
    match (scene.port(alloc), sink_in(folder, alloc, dir)) {
        (Ok(port), Ok(sink)) => ends_so(alloc, port, sink, scene.page(alloc), want),
        _ => false,
    }
}

/// The same, into a folder of the system.
fn is_received(rt: &HostRuntime, dir: &PathBuf, scene: Scene<'_>, want: End<'_>) -> bool {
    is_received_in(SystemFolder::new(rt), rt.alloc(), dir, scene, want)
}

/// Whether this folder has no part of the file `a`.
fn has_no_part(rt: &HostRuntime, dir: &PathBuf) -> bool {
    match dir.join(rt.alloc(), "a.part") {
        Ok(part) => matches!(fs::exists(rt, &part), Ok(false)),
        Err(_) => false,
    }
}

/// Whether a receiver into a new folder of this name ends so, and leaves no part.
fn receives(rt: &HostRuntime, name: &str, scene: Scene<'_>, want: End<'_>) -> bool {
    match folder(rt, name) {
        Ok(dir) => {
            is_received(rt, &dir, scene, want)
                && has_no_part(rt, &dir)
                && fs::remove_dir_all(rt, &dir).is_ok()
        }
        Err(_) => false,
    }
}

/// What was received as a whole.
fn whole(text: &str) -> End<'_> {
    End {
        answer: Ok(0),
        text,
        files: 1,
    }
}

/// What a receiver was told by a fault, after it stored so many files.
fn faulty(fault: CommandFault, text: &str, files: usize) -> End<'_> {
    End {
        answer: Err(fault),
        text,
        files,
    }
}

/// What a receiver comes to that was cancelled.
fn cancelled() -> End<'static> {
    End {
        answer: Ok(1),
        text: "receiver files 0 cancelled\n",
        files: 0,
    }
}

/// Whether a receiver of all frames, of those without the last, of a file that is open at the end,
/// and one that is cancelled are told.
fn are_told(rt: &HostRuntime, frames: &Frames) -> bool {
    let all = whole("file a 128 14 644\nreceiver files 1 finished\n");
    let no_last = faulty(
        CommandFault::Closed,
        "file a 128 14 644\nreceiver files 1 running\n",
        1,
    );
    let open = faulty(CommandFault::Closed, "receiver files 0 running\n", 0);
    receives(rt, "whole", Scene::whole(&frames.all()), all)
        && receives(rt, "no-end", Scene::whole(&frames.no_last()), no_last)
        && receives(rt, "open", Scene::whole(&frames.prefix()), open)
        && receives(rt, "cancelled", Scene::whole(CANCELS), cancelled())
}

#[test]
fn a_receiver_is_told(rt: HostRuntime) -> Result<(), Fail> {
    let frames = Frames::usual(rt.alloc())?;
    assert!(rt; are_told(&rt, &frames));
    Ok(())
}

/// Whether the fault of the engine is told before that of the output, and that of the output before
/// what the end says.
fn is_one_told(rt: &HostRuntime, frames: &Frames) -> bool {
    let engine = faulty(CommandFault::Closed, "", 0);
    let stored = faulty(CommandFault::Device, "", 1);
    let said = faulty(CommandFault::Device, "", 0);
    receives(rt, "engine", Scene::broken(&frames.prefix()), engine)
        && receives(rt, "output", Scene::broken(&frames.all()), stored)
        && receives(rt, "said", Scene::broken(CANCELS), said)
}

/// The fault of the engine before that of the output, and that of the output before what the end
/// says. What was stored stays.
#[test]
fn of_the_faults_of_a_receiver_one_is_told(rt: HostRuntime) -> Result<(), Fail> {
    let frames = Frames::usual(rt.alloc())?;
    assert!(rt; is_one_told(&rt, &frames));
    Ok(())
}

/// Whether these frames are received, and this is printed of them.
fn prints(rt: &HostRuntime, frames: &Frames, text: &str) -> bool {
    receives(rt, "line", Scene::whole(&frames.all()), whole(text))
}

/// Whether this is printed of a file of 12 bytes with this stamp.
fn is_printed(rt: &HostRuntime, stamp: Stamp, text: &str) -> Result<bool, Fail> {
    let frames = Frames::new(rt.alloc(), "a b", 12, stamp)?;
    Ok(prints(rt, &frames, text))
}

/// Stamps, and what is printed of a file that has them.
static STAMPS: [(Stamp, &str); 4] = [
    (
        Stamp::Nothing,
        "file a b 12 - -\nreceiver files 1 finished\n",
    ),
    (
        Stamp::Time(12),
        "file a b 12 14 -\nreceiver files 1 finished\n",
    ),
    (
        Stamp::TimeMode(12, 420),
        "file a b 12 14 644\nreceiver files 1 finished\n",
    ),
    (
        Stamp::TimeMode(0, 0),
        "file a b 12 0 0\nreceiver files 1 finished\n",
    ),
];

/// The line of a file that was stored, with its stamp.
#[test]
fn a_file_is_told(rt: HostRuntime) -> Result<(), Fail> {
    for (stamp, text) in &STAMPS {
        assert!(rt; is_printed(&rt, *stamp, text)?);
    }
    Ok(())
}
