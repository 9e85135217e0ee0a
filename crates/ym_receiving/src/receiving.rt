//! `receive`: the files of one connection.

ghost use Rattle.std.specs.Prelude.{◌≡◌, ◌≢◌, ◌≤◌, ℕ, Result, OnOk, OnErr, IfOk};
ghost use Rattle.std.specs.Io.KnownBytes.{Appends};
ghost use Rattle.ym_file.specs.Counts.{Counted};
ghost use Rattle.ym_file.specs.Kept.{IsNew};
ghost use Rattle.ym_file.specs.declared.sink.SinkFault.{SinkFault as Shut};
ghost use Rattle.ym_folder.specs.DirSink.{kept_of};
ghost use Rattle.ym_link.specs.ReceiverInto.{ReceiverParts};
ghost use Rattle.ym_link.specs.declared.end_fault.EndFault.{EndFault as Why};
ghost use Rattle.ym_answer.specs.Lines.{file_lines, receiver_lines};
ghost use Rattle.ym_answer.specs.Page.{Prints, page};
ghost use Rattle.ym_receiving.specs.Receiving.{ReceiverRuns, Closes, ReceivesBatch, TellsReceiver};
ghost use Rattle.ym_receiving.specs.Receiving.{SessionGives, receive_gives};
ghost use Rattle.ym_answer.specs.Status.{receive_answer};

use crate::store::Store;
use crate::telling::{Explains, ReceiverFinish, tell_outcome};
use crate::watched::Watched;
use std::alloc::{AllocError, AllocGlobal, Global};
use std::cell::RefCell;
use std::fs::{File, Files};
use std::io;
use std::io::Write;
use std::time::Clock;
use ym_answer::{CommandFault, FileLine};
use ym_eager::Eager;
use ym_ends::{LineWords, ToldLine, ToldWire};
use ym_file::SinkFault;
use ym_folder::{DirSink, Durability, Folder, Leftover, check_folder};
use ym_header::Header;
use ym_host::SystemFolder;
use ym_line::ReceiverLine;
use ym_link::{Confirm, EndFault, Port, ReceiverInto, RecvState, receive_over};
use ym_pair::laws::a_receiver_commits_what_it_heard;
use ym_port::{InStep, Role, TimedPort};
use ym_record::{RecordedWire, Records};
use ym_show::{Meter, ReceiveWatch, Receiving, WatchedPort};
use ym_streams::{Output, StreamFault};
use ym_teller::Teller;
use ym_text::{FileMessage, Lately, Reason};

/// After so many seconds without a byte it gives up: ten deliveries, each waited for so long.
const QUIET_S: u64 = 30;

/// Prints a line for each file.
fn print_files<O: Output>(out: &mut O, headers: &[Header]) -> Result<(), StreamFault>
    ensures { Prints (page (O.contents out.old) (O.failures out.old)) (file_lines headers.now)
        result (page (O.contents out.new) (O.failures out.new)) }
{
    for header in headers {
        out.put_line(FileLine(header))?;
    }
    Ok(())
}

/// Prints a line for each file, and one for the receiver.
fn print<O: Output>(out: &mut O, headers: &[Header], state: RecvState) -> Result<(), StreamFault>
    ensures { Prints (page (O.contents out.old) (O.failures out.old))
        (receiver_lines headers.now state) result
        (page (O.contents out.new) (O.failures out.new)) }
{
    print_files(out, headers)?;
    let files = headers.len();
    out.put_line(ReceiverLine { files, state })
}

/// The status of a receiver that no port stopped.
fn status_of(state: RecvState) -> Result<u8, CommandFault>
    ensures { result ≡ receive_answer state }
{
    match state {
        RecvState::Finished => Ok(0),
        RecvState::SinkFailed => Err(CommandFault::Device),
        _ => Ok(1),
    }
}

/// What a receiver's end comes to. Of several faults that of the engine is told, then that of the
/// folder, then that of the output.
fn answer_of(
    ended: Result<(), EndFault>,
    closed: Result<(), SinkFault>,
    printed: Result<(), StreamFault>,
    state: RecvState,
) -> Result<u8, CommandFault>
    ensures { result ≡ receive_gives ended closed printed state }
{
    ended?;
    closed?;
    printed?;
    status_of(state)
}

/// What a receiver is asked for, and where.
#[derive(Clone, Copy)]
pub struct Order<'a> {
    /// When it acknowledges an EOT.
    pub confirm: Confirm,
    /// When a file counts as stored.
    pub durability: Durability,
    /// What becomes of the part of an earlier run.
    pub leftover: Leftover,
    /// It asks for the first file at once.
    pub eager: bool,
    /// It takes one connection after another.
    pub keep: bool,
    /// The folder that it stores in.
    pub dir: &'a str,
    /// The file that what passes is recorded in, if any is.
    pub record_path: Option<&'a str>,
}

/// The sink that is asked for, which stores files in a folder.
fn open_sink<D: Folder + Drop>(
    folder: D,
    alloc: Global,
    order: Order<'_>,
) -> Result<DirSink<D>, AllocError>
    ensures { IfOk result (λ sink. IsNew (kept_of sink)) }
{
    DirSink::new(folder, alloc, order.dir, order.durability, order.leftover)
}

/// Runs a receiver over a port, lets its sink go of what is open, also after a fault, and prints
/// the files that were committed and how the receiver has ended. The sink comes back, with how the
/// receiver has ended, and its status: 0 where it has finished.
pub fn receive_batch<P: Port, K: Store + Drop, O: Output>(
    port: &mut P,
    mut receiver: ReceiverInto<K>,
    out: &mut O,
) -> (K, RecvState, Result<u8, CommandFault>)
    ensures { (r : ReceiverParts) × (ended : Result Unit Why) × (closed : Result Unit Shut)
        × ReceiverRuns (P.tells port.old) (P.tells port.new) receiver
        (P.failures port.old) (P.failures port.new) ended r
        × Closes r.kept r.failures closed (K.kept result.0) (K.failures result.0)
        × (result.1 ≡ r.receiver.state)
        × TellsReceiver ended closed r (page (O.contents out.old) (O.failures out.old)) result.2
        (page (O.contents out.new) (O.failures out.new)) }
{
    a_receiver_commits_what_it_heard();
    let ended = receive_over(port, &mut receiver);
    let state = receiver.state();
    let mut sink = receiver.into_sink();
    let closed = sink.close();
    let printed = print(out, sink.headers(), state);
    (sink, state, answer_of(ended, closed, printed, state))
}

/// Sees that files can be stored in the folder at this path, or tells why not.
pub(crate) fn look_at<R: Files<File = File>, E: Write + Drop>(
    rt: &R,
    alloc: Global,
    dir: &str,
    teller: &mut Teller<E>,
) -> io::Result<()> {
    let looked = check_folder(&mut SystemFolder::new(rt), alloc, dir);
    if let Err(error) = &looked {
        teller.tell(FileMessage::CannotStoreIn(dir, Reason::of(error)));
    }
    looked
}

/// Receives the files that come over a port, as [`receive_on`] does, of which the first read finds
/// the line quiet at once where that is asked for.
fn receive_eagerly<R, P, O, E>(
    rt: &R,
    port: P,
    order: Order<'_>,
    out: &mut O,
    teller: &mut Teller<E>,
) -> Result<u8, CommandFault>
where
    R: Files<File = File> + Clock + AllocGlobal,
    P: ToldLine + Drop,
    O: Output,
    E: Write + Drop,
    ensures { SessionGives order.entry.confirm
        (page (O.contents out.old) (O.failures out.old)) result
        (page (O.contents out.new) (O.failures out.new)) }
{
    receive_on(rt, Eager::new(port, order.eager), order, out, teller)
}

/// The same of a port over which no block 0 comes out of turn.
fn receive_in_step<R, P, O, E>(
    rt: &R,
    port: P,
    order: Order<'_>,
    out: &mut O,
    teller: &mut Teller<E>,
) -> Result<u8, CommandFault>
where
    R: Files<File = File> + Clock + AllocGlobal,
    P: ToldLine + Drop,
    O: Output,
    E: Write + Drop,
    ensures { SessionGives order.entry.confirm
        (page (O.contents out.old) (O.failures out.old)) result
        (page (O.contents out.new) (O.failures out.new)) }
{
    receive_eagerly(rt, InStep::new(port), order, out, teller)
}

/// Receives the files that come over a line, as [`receive_in_step`] does over a port of it.
fn receive_at<R, W, O, E>(
    rt: &R,
    wire: W,
    order: Order<'_>,
    out: &mut O,
    teller: &mut Teller<E>,
) -> Result<u8, CommandFault>
where
    R: Files<File = File> + Clock + AllocGlobal,
    W: ToldWire + Drop,
    O: Output,
    E: Write + Drop,
    ensures { SessionGives order.entry.confirm
        (page (O.contents out.old) (O.failures out.old)) result
        (page (O.contents out.new) (O.failures out.new)) }
{
    let port = TimedPort::new(wire, Role::Receiver);
    receive_in_step(rt, port, order, out, teller)
}

/// What a receiver is asked for, and what is recorded of it.
pub(crate) struct Recorded<'o, 'r, 'p> {
    /// What it is asked for.
    pub order: Order<'o>,
    /// What passes is put there, where that is wanted.
    pub records: &'r mut Records<'p>,
}

/// The same over a line that is recorded where that is wanted.
pub(crate) fn receive_through<R, W, O, E>(
    rt: &R,
    wire: W,
    asked: Recorded<'_, '_, '_>,
    out: &mut O,
    teller: &mut Teller<E>,
) -> Result<u8, CommandFault>
where
    R: Files<File = File> + Clock + AllocGlobal,
    W: ToldWire + Drop,
    O: Output,
    E: Write + Drop,
    ensures { SessionGives asked.entry.order.confirm
        (page (O.contents out.old) (O.failures out.old)) result
        (page (O.contents out.new) (O.failures out.new)) }
{
    let Recorded { order, records } = asked;
    records.start();
    let wire = RecordedWire::new(wire, rt, Role::Receiver, &mut records.recorder);
    let answer = receive_at(rt, wire, order, out, teller);
    records.end(matches!(answer, Ok(0)), teller);
    answer
}

/// How many replies a file takes besides those to its blocks.
fn besides(confirm: Confirm) -> u64 {
    match confirm {
        Confirm::Once => 1,
        Confirm::Twice => 2,
    }
}

/// Who watches a receiver's sink or its port, and shows it so.
fn watch_of<'s, 't, E: Write + Drop, C: Clock + Drop>(
    shown: &'s RefCell<Receiving<'t, E, C>>,
    is_looked_at: bool,
) -> ReceiveWatch<'s, 't, E, C> {
    ReceiveWatch {
        shown,
        is_looked_at,
    }
}

/// How a receiver has left its port.
#[derive(Clone, Copy)]
struct ReceiverLeft {
    /// Its own end.
    state: RecvState,
    /// What faults of the port are told as.
    words: LineWords,
    /// How long the slowest answer of late took, in milliseconds, where that is known.
    slowest: Option<u64>,
}

/// How a receiver is made, and whether somebody looks.
#[derive(Clone, Copy)]
struct Looked {
    /// Where it has its memory from.
    alloc: Global,
    /// When it acknowledges an EOT.
    confirm: Confirm,
    /// Whether somebody looks.
    is_looked_at: bool,
}

/// Receives the files that come over a port into a new sink, as [`receive_batch`] does.
fn receive_new<P: Port, K: Store + Drop, O: Output>(
    port: &mut P,
    sink: K,
    looked: Looked,
    out: &mut O,
) -> (K, RecvState, Result<u8, CommandFault>)
    requires { IsNew (K.kept sink) }
    ensures { ReceivesBatch looked.confirm
        (page (O.contents out.old) (O.failures out.old)) result.2
        (page (O.contents out.new) (O.failures out.new)) }
{
    let receiver = ReceiverInto::with_sink(looked.alloc, sink, looked.confirm);
    receive_batch(port, receiver, out)
}

/// Receives the files that come over a port into a new sink, and prints them and how the receiver
/// has ended. Both are watched. The sink comes back, and the port is let go.
fn receive_watched<'s, 't, P, K, C, O, E>(
    port: P,
    sink: K,
    shown: &'s RefCell<Receiving<'t, E, C>>,
    looked: Looked,
    out: &mut O,
) -> (K, ReceiverLeft, Result<u8, CommandFault>)
where
    P: ToldLine + Drop,
    K: Store + Drop,
    C: Clock + Drop,
    O: Output,
    E: Write + Drop,
    requires { IsNew (K.kept sink) }
    ensures { ReceivesBatch looked.confirm
        (page (O.contents out.old) (O.failures out.old)) result.2
        (page (O.contents out.new) (O.failures out.new)) }
{
    let watch = watch_of(shown, looked.is_looked_at);
    let watched = Watched { sink, watch };
    let watch = watch_of(shown, looked.is_looked_at);
    let mut port = WatchedPort {
        port,
        watch,
        slowest: None,
    };
    let (watched, state, answer) = receive_new(&mut port, watched, looked, out);
    let left = ReceiverLeft {
        state,
        words: port.port.words(),
        slowest: port.slowest,
    };
    let Watched { sink, watch: _ } = watched;
    (sink, left, answer)
}

/// The name of the file that a sink was last given, the name that came last, and what came of late.
/// The showing ends.
fn end_of<E: Write + Drop, C: Clock + Drop>(
    mut shown: Receiving<'_, E, C>,
) -> (Option<String>, Option<String>, Lately) {
    let named = shown.named();
    let (last, lately) = shown.end();
    (last, named, lately)
}

/// The port that a receiver hears, and the sink or the folder that takes its files.
struct Ends<P, K> {
    port: P,
    into: K,
}

/// Receives the files that come over a port of the program's own into a new sink, as
/// [`receive_on`] does into a folder.
fn receive_into<R, P, K, O, E>(
    rt: &R,
    ends: Ends<P, K>,
    order: Order<'_>,
    out: &mut O,
    teller: &mut Teller<E>,
) -> Result<u8, CommandFault>
where
    R: Clock + AllocGlobal,
    P: ToldLine + Drop,
    K: Store + Explains + Drop,
    O: Output,
    E: Write + Drop,
    requires { IsNew (K.kept ends.into) }
    ensures { ReceivesBatch order.entry.confirm
        (page (O.contents out.old) (O.failures out.old)) result
        (page (O.contents out.new) (O.failures out.new)) }
{
    let Ends { port, into } = ends;
    let alloc = rt.alloc();
    let looked = Looked {
        alloc,
        confirm: order.confirm,
        is_looked_at: teller.is_loud,
    };
    let meter = Meter::new(alloc, rt, teller, QUIET_S);
    let shown = RefCell::new(Receiving::new(alloc, meter, besides(order.confirm)));
    let (sink, left, answer) = receive_watched(port, into, &shown, looked, out);
    let (last, named, lately) = end_of(shown.into_inner());
    let outcome = ReceiverFinish {
        state: left.state,
        last: last.as_deref(),
        named: named.as_deref(),
        why: sink.first_fault(),
        lately: lately.on_line(left.slowest),
        words: left.words,
    };
    tell_outcome(teller, alloc, &answer, outcome, order.leftover);
    answer
}

/// The same into a folder, as [`receive_on`] does into one of the system.
fn receive_stored<R, P, D, O, E>(
    rt: &R,
    ends: Ends<P, D>,
    order: Order<'_>,
    out: &mut O,
    teller: &mut Teller<E>,
) -> Result<u8, CommandFault>
where
    R: Clock + AllocGlobal,
    P: ToldLine + Drop,
    D: Folder + Drop,
    O: Output,
    E: Write + Drop,
    ensures { SessionGives order.entry.confirm
        (page (O.contents out.old) (O.failures out.old)) result
        (page (O.contents out.new) (O.failures out.new)) }
{
    let Ends { port, into: folder } = ends;
    let into = open_sink(folder, rt.alloc(), order)?;
    receive_into(rt, Ends { port, into }, order, out, teller)
}

/// Receives the files that come over a port of the program's own, and prints them and how the
/// receiver has ended. Where somebody looks, how far each file is is shown, and why one was not
/// stored and why the receiver has ended told.
fn receive_on<R, P, O, E>(
    rt: &R,
    port: P,
    order: Order<'_>,
    out: &mut O,
    teller: &mut Teller<E>,
) -> Result<u8, CommandFault>
where
    R: Files<File = File> + Clock + AllocGlobal,
    P: ToldLine + Drop,
    O: Output,
    E: Write + Drop,
    ensures { SessionGives order.entry.confirm
        (page (O.contents out.old) (O.failures out.old)) result
        (page (O.contents out.new) (O.failures out.new)) }
{
    let into = SystemFolder::new(rt);
    receive_stored(rt, Ends { port, into }, order, out, teller)
}
