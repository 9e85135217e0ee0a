//! `send`: files, to whoever listens.

ghost use Rattle.std.specs.Prelude.{◌≡◌, ◌<◌, ◌^◌, ◌⊎◌, ℕ, Result, IfOk, IfErr, length, map};
ghost use Rattle.ym_header.specs.Header.{IsName, IsRefused, length_limit};
ghost use Rattle.ym_link.specs.declared.end_fault.EndFault.{EndFault as Why};
ghost use Rattle.ym_core.specs.Standing.{new_standing};
ghost use Rattle.ym_link.specs.Sender.{counts};
ghost use Rattle.ym_machine.specs.declared.limits.TheConstants.{MOST_FILES};
ghost use Rattle.ym_sending.specs.Sending.{last_part, header_at, IsBatch, IsNewSender, MayRefuse};
ghost use Rattle.ym_sending.specs.Sending.{RefusesBatch, RefusesFile, SenderRuns, TellsSender};
ghost use Rattle.ym_sending.specs.Sending.{SendsOn, SendGives, send_gives};
ghost use Rattle.ym_answer.specs.Page.{page};
ghost use Rattle.ym_answer.specs.Status.{IsHostFault, send_answer};

use crate::calling::connect_telling;
use crate::same_names::tell_same_names;
use crate::telling::{SenderFinish, tell_outcome};
use crate::told_source::{Opener, ToldSource, UnreadCell, open_source};
use std::alloc::{AllocGlobal, Global};
use std::cell::RefCell;
use std::fs::{File, Files};
use std::io::Write;
use std::net::{Net, TcpStream};
use std::path::Path;
use std::time::Clock;
use ym_answer::CommandFault;
use ym_ends::{AtPort, ToldLine, ToldWire};
use ym_file::{Shape, Source};
use ym_header::{HeaderFault, Stamp};
use ym_host::SocketWire;
use ym_line::SenderLine;
use ym_link::laws::a_step_keeps_the_batch;
use ym_link::{BatchFault, EndFault, Port, SendState, SenderFrom, SourceFile, send_over};
use ym_pair::laws::a_sender_was_acknowledged;
use ym_port::{Role, TimedPort};
use ym_record::{Beside, RecordedWire, Records};
use ym_show::{Meter, SendWatch, Sending, WatchedPort};
use ym_streams::{Output, StreamFault};
use ym_teller::Teller;
use ym_text::FileMessage;

/// After so many seconds without a byte it gives up: ten deliveries, each waited for so long.
const QUIET_S: u64 = 100;

/// The last part of a path, or nothing where it has none.
pub(crate) fn last_part(path: &str) -> &str
    ensures { result.now ≡ last_part path.now }
{
    Path::new(path).file_name().unwrap_or("")
}

/// The source with the header that it is sent under, or why there is none told.
fn with_header<S: Source + Drop, E: Write + Drop>(
    alloc: Global,
    path: &str,
    source: S,
    teller: &mut Teller<E>,
) -> Result<SourceFile<S>, HeaderFault>
    ensures ok { IfOk result (λ file. file.header ≡ header_at path.now (S.size source)) }
    ensures within { IfOk result (λ file. IsName (last_part path.now)) }
    ensures refused { IfErr result
        (λ fault. IsRefused length_limit (last_part path.now) (S.size source) fault) }
{
    let made = SourceFile::from_source(alloc, last_part(path), source, Stamp::Nothing);
    if let Err(fault) = &made {
        teller.tell(FileMessage::CannotSend(path, *fault));
    }
    made
}

/// The file at this path, under the last part of the path. No stamp is sent.
fn open_file<'c, 'a, R: Files<File = File>, E: Write + Drop>(
    opener: &Opener<'c, 'a, R>,
    path: &'a str,
    teller: &mut Teller<E>,
) -> Result<SourceFile<ToldSource<'c, 'a, R>>, CommandFault>
    ensures named { IfOk result (λ file. file.header.name ≡ last_part path.entry.now) }
    ensures stamp { IfOk result (λ file. file.header.stamp ≡ Stamp.Nothing) }
    ensures within { IfOk result (λ file. IsName (last_part path.entry.now)) }
    ensures refused { IfErr result (λ why. MayRefuse (last_part path.entry.now) why) }
{
    let source = open_source(opener, path, teller)?;
    let file = with_header(opener.alloc, path, source, teller)?;
    Ok(file)
}

/// The files at these paths, looked at in order, or the first fault.
pub(crate) fn open_batch<'c, 'a, R: Files<File = File>, E: Write + Drop>(
    opener: &Opener<'c, 'a, R>,
    paths: &[&'a str],
    teller: &mut Teller<E>,
) -> Result<Vec<SourceFile<ToldSource<'c, 'a, R>>>, CommandFault>
    ensures batch { IfOk result (λ batch. IsBatch (map (λ path. path.now) paths.now) batch.items) }
    ensures refused { IfErr result (λ why. RefusesFile (map (λ path. path.now) paths.now) why) }
{
    let mut batch = Vec::new(opener.alloc);
    for path in paths {
        let file = open_file(opener, path, teller)?;
        if batch.push(file).is_err() {
            return Err(CommandFault::Memory);
        }
    }
    Ok(batch)
}

/// A sender of these files, of which there may be too many.
pub(crate) fn sender_of<S: Source + Drop>(
    batch: Vec<SourceFile<S>>,
    shape: Shape,
) -> Result<SenderFrom<S>, CommandFault>
    ensures new { IfOk result (λ sender. (sender.shape ≡ shape) × (sender.files ≡ batch.items)
        × (sender.standing ≡ new_standing (counts sender))) }
    ensures refused { IfErr result
        (λ why. (why ≡ CommandFault.TooManyFiles) × (MOST_FILES < length batch.items)) }
{
    match SenderFrom::new(batch, shape) {
        Ok(sender) => Ok(sender),
        Err(BatchFault::TooMany(_)) => Err(CommandFault::TooManyFiles),
    }
}

/// The status of a sender that no port stopped.
fn status_of(state: SendState) -> Result<u8, CommandFault>
    ensures { result ≡ send_answer state }
{
    match state {
        SendState::Finished => Ok(0),
        SendState::Running | SendState::NoReply | SendState::Cancelled => Ok(1),
        SendState::SourceFailed => Err(CommandFault::Device),
    }
}

/// What a sender's end comes to. Of several faults that of the engine is told, and then that of the
/// output.
fn answer_of(
    ended: Result<(), EndFault>,
    printed: Result<(), StreamFault>,
    state: SendState,
) -> Result<u8, CommandFault>
    ensures { result ≡ send_gives ended printed state }
{
    ended?;
    printed?;
    status_of(state)
}

/// Prints how a sender has ended, and answers its status.
fn tell_sender<S: Source, O: Output>(
    ended: Result<(), EndFault>,
    sender: &SenderFrom<S>,
    out: &mut O,
) -> Result<u8, CommandFault>
    ensures { TellsSender ended sender.now (page (O.contents out.old) (O.failures out.old)) result
        (page (O.contents out.new) (O.failures out.new)) }
{
    let done = sender.done();
    let state = sender.state();
    let printed = out.put_line(SenderLine { done, state });
    answer_of(ended, printed, state)
}

/// Runs a sender over a port.
fn run_sender<P: Port, S: Source>(port: &mut P, sender: &mut SenderFrom<S>) -> Result<(), EndFault>
    ensures { SenderRuns (P.tells port.old) (P.tells port.new) sender.old
        (P.failures port.old) (P.failures port.new) result sender.new }
{
    a_sender_was_acknowledged();
    a_step_keeps_the_batch();
    send_over(port, sender)
}

/// Runs a sender over a port, and prints how it has ended. The answer is its status: 0 where it has
/// finished.
pub fn send_batch<P: Port, S: Source, O: Output>(
    port: &mut P,
    sender: &mut SenderFrom<S>,
    out: &mut O,
) -> Result<u8, CommandFault>
    ensures { (ended : Result Unit Why)
        × SenderRuns (P.tells port.old) (P.tells port.new) sender.old
        (P.failures port.old) (P.failures port.new) ended sender.new
        × TellsSender ended sender.new (page (O.contents out.old) (O.failures out.old)) result
        (page (O.contents out.new) (O.failures out.new)) }
{
    let ended = run_sender(port, sender);
    tell_sender(ended, sender, out)
}

/// Who watches a sender's port, and shows it so.
fn watch_of<'s, 't, E: Write + Drop, C: Clock + Drop>(
    shown: &'s RefCell<Sending<'t, E, C>>,
    is_looked_at: bool,
) -> SendWatch<'s, 't, E, C> {
    SendWatch {
        shown,
        is_looked_at,
    }
}

/// A line or a port, and the files that are sent there.
struct Over<'a, L> {
    line: L,
    files: SentFiles<'a>,
}

/// The same as [`send_batch`] over a port of the program's own. Where somebody looks, how far each
/// file is or whom it waits for is shown, and why the sender has ended told: also which file could
/// not be read, where its source has said so.
fn send_on<R, P, S, O, E>(
    rt: &R,
    over: Over<'_, P>,
    sender: &mut SenderFrom<S>,
    out: &mut O,
    teller: &mut Teller<E>,
) -> Result<u8, CommandFault>
where
    R: Clock + AllocGlobal,
    P: ToldLine + Drop,
    S: Source,
    O: Output,
    E: Write + Drop,
    ensures { SendsOn sender.old sender.new
        (page (O.contents out.old) (O.failures out.old)) result
        (page (O.contents out.new) (O.failures out.new)) }
{
    let Over { line: port, files } = over;
    let is_looked_at = teller.is_loud;
    let shown = RefCell::new(Sending::new(Meter::new(rt.alloc(), rt, teller, QUIET_S)));
    let watch = watch_of(&shown, is_looked_at);
    let mut port = WatchedPort {
        port,
        watch,
        slowest: None,
    };
    let ended = run_sender(&mut port, sender);
    let words = port.port.words();
    let slowest = port.slowest;
    drop(port);
    // What is printed stands in lines of its own, also where both go to one terminal.
    let lately = shown.into_inner().end();
    let answer = tell_sender(ended, sender, out);
    let outcome = SenderFinish {
        state: sender.state(),
        path: files.paths.get(sender.done()).copied(),
        unread: files.unread.get(),
        lately: lately.on_line(slowest),
        words,
    };
    tell_outcome(teller, &answer, outcome);
    answer
}

/// The files of a batch, as far as they are told of.
#[derive(Clone, Copy)]
pub(crate) struct SentFiles<'a> {
    /// Their paths, in order.
    pub(crate) paths: &'a [&'a str],
    /// Why one of them could not be read.
    pub(crate) unread: &'a UnreadCell,
}

/// What is sent over a line.
#[derive(Drop)]
pub(crate) struct Outgoing<'a, S: Source> {
    /// The sender.
    pub(crate) sender: SenderFrom<S>,
    /// Its files.
    pub(crate) files: SentFiles<'a>,
    /// What is recorded of it.
    pub(crate) records: Records<'a>,
}

/// The same over a line, by a port of it.
fn send_at<R, W, S, O, E>(
    rt: &R,
    over: Over<'_, W>,
    sender: &mut SenderFrom<S>,
    out: &mut O,
    teller: &mut Teller<E>,
) -> Result<u8, CommandFault>
where
    R: Clock + AllocGlobal,
    W: ToldWire + Drop,
    S: Source,
    O: Output,
    E: Write + Drop,
    ensures { SendsOn sender.old sender.new
        (page (O.contents out.old) (O.failures out.old)) result
        (page (O.contents out.new) (O.failures out.new)) }
{
    let Over { line: wire, files } = over;
    let line = TimedPort::new(wire, Role::Sender);
    send_on(rt, Over { line, files }, sender, out, teller)
}

/// The same over a line that is recorded where that is wanted.
pub(crate) fn send_through<R, W, S, O, E>(
    rt: &R,
    wire: W,
    outgoing: &mut Outgoing<'_, S>,
    out: &mut O,
    teller: &mut Teller<E>,
) -> Result<u8, CommandFault>
where
    R: Clock + AllocGlobal,
    W: ToldWire + Drop,
    S: Source,
    O: Output,
    E: Write + Drop,
    ensures { SendsOn outgoing.old.sender outgoing.new.sender
        (page (O.contents out.old) (O.failures out.old)) result
        (page (O.contents out.new) (O.failures out.new)) }
{
    let Outgoing {
        sender,
        files,
        records,
    } = outgoing;
    records.start();
    let line = RecordedWire::new(wire, rt, Role::Sender, &mut records.recorder);
    let files = *files;
    let answer = send_at(rt, Over { line, files }, sender, out, teller);
    records.end(matches!(answer, Ok(0)), teller);
    answer
}

/// What a sender is asked for.
#[derive(Clone, Copy)]
pub struct SendOrder<'a> {
    /// The paths of its files, in order.
    pub paths: &'a [&'a str],
    /// How they are cut.
    pub shape: Shape,
    /// The file that what passes is recorded in, if any is.
    pub record_path: Option<&'a str>,
}

/// A sender of the files that are asked for, and its records.
pub(crate) fn outgoing_of<'a, R, E>(
    rt: &'a R,
    order: SendOrder<'a>,
    unread: &'a UnreadCell,
    teller: &mut Teller<E>,
) -> Result<Outgoing<'a, ToldSource<'a, 'a, R>>, CommandFault>
where
    R: Files<File = File> + Clock + AllocGlobal,
    E: Write + Drop,
    ensures new { IfOk result (λ outgoing. IsNewSender order.entry.shape
        (map (λ path. path.now) order.entry.paths.now) outgoing.sender) }
    ensures refused { IfErr result (λ why. RefusesBatch
        (map (λ path. path.now) order.entry.paths.now) why ⊎ IsHostFault why) }
{
    let alloc = rt.alloc();
    let opener = Opener { rt, alloc, unread };
    let batch = open_batch(&opener, order.paths, teller)?;
    let sender = sender_of(batch, order.shape)?;
    tell_same_names(alloc, order.paths, teller);
    let beside = Beside::Sent(order.paths);
    let records = Records::open(rt, alloc, order.record_path, beside, teller)?;
    let files = SentFiles {
        paths: order.paths,
        unread,
    };
    Ok(Outgoing {
        sender,
        files,
        records,
    })
}

/// Sends over a connection, and prints how the sender has ended.
fn send_over_socket<R, S, O, E>(
    rt: &R,
    stream: TcpStream,
    outgoing: &mut Outgoing<'_, S>,
    out: &mut O,
    teller: &mut Teller<E>,
) -> Result<u8, CommandFault>
where
    R: Clock + AllocGlobal,
    S: Source,
    O: Output,
    E: Write + Drop,
    ensures { SendsOn outgoing.old.sender outgoing.new.sender
        (page (O.contents out.old) (O.failures out.old)) result
        (page (O.contents out.new) (O.failures out.new)) }
{
    let wire = SocketWire::new(rt, stream, Role::Sender);
    send_through(rt, wire, outgoing, out, teller)
}

/// Sends files to whoever listens at a port, and prints how the sender has ended. Why one of
/// them could not be read it says in a cell.
fn send_telling<'a, R, O, E>(
    rt: &'a R,
    asked: AtPort<SendOrder<'a>>,
    unread: &'a UnreadCell,
    out: &mut O,
    teller: &mut Teller<E>,
) -> Result<u8, CommandFault>
where
    R: Files<File = File> + Net<Stream = TcpStream> + Clock + AllocGlobal,
    O: Output,
    E: Write + Drop,
    ensures { SendGives asked.entry.order.shape
        (map (λ path. path.now) asked.entry.order.paths.now)
        (page (O.contents out.old) (O.failures out.old)) result
        (page (O.contents out.new) (O.failures out.new)) }
{
    let AtPort { port, order } = asked;
    let mut outgoing = outgoing_of(rt, order, unread, teller)?;
    let stream = connect_telling(rt, port, teller)?;
    send_over_socket(rt, stream, &mut outgoing, out, teller)
}

/// Sends files to whoever listens at a port, and prints how the sender has ended.
pub fn send<R, O, E>(
    rt: &R,
    asked: AtPort<SendOrder<'_>>,
    out: &mut O,
    teller: &mut Teller<E>,
) -> Result<u8, CommandFault>
where
    R: Files<File = File> + Net<Stream = TcpStream> + Clock + AllocGlobal,
    O: Output,
    E: Write + Drop,
    ensures { SendGives asked.entry.order.shape
        (map (λ path. path.now) asked.entry.order.paths.now)
        (page (O.contents out.old) (O.failures out.old)) result
        (page (O.contents out.new) (O.failures out.new)) }
{
    let unread = UnreadCell::new(None);
    send_telling(rt, asked, &unread, out, teller)
}
