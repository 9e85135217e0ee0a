//! `sb`: files over a terminal, or over standard input and output.

ghost use Rattle.std.specs.Prelude.{map};
ghost use Rattle.ym_answer.specs.Page.{page};
ghost use Rattle.ym_sending.specs.Sending.{SendGives, SendsOn};

use crate::sending::{Outgoing, SendOrder, outgoing_of, send_through};
use crate::told_source::UnreadCell;
use std::alloc::AllocGlobal;
use std::fs::{File, Files};
use std::io;
use std::io::{IsTerminal, Print, Read, Write};
use std::time::Clock;
use ym_answer::CommandFault;
use ym_ends::{OnLine, open_line};
use ym_file::Source;
use ym_host::TtyWire;
use ym_port::Role;
use ym_streams::Output;
use ym_teller::Teller;

/// What a [`TtyWire`] is made of.
struct TtyParts<I, U> {
    reader: I,
    writer: U,
    is_terminal: bool,
}

/// Sends what is sent over a terminal, and prints how the sender has ended.
fn send_at<R, I, U, S, O, E>(
    rt: &R,
    parts: TtyParts<I, U>,
    outgoing: &mut Outgoing<'_, S>,
    out: &mut O,
    teller: &mut Teller<E>,
) -> Result<u8, CommandFault>
where
    R: Clock + AllocGlobal,
    I: Read + Drop,
    U: Write + Drop,
    S: Source,
    O: Output,
    E: Write + Drop,
    ensures { SendsOn outgoing.old.sender outgoing.new.sender
        (page (O.contents out.old) (O.failures out.old)) result
        (page (O.contents out.new) (O.failures out.new)) }
{
    let TtyParts {
        reader,
        writer,
        is_terminal,
    } = parts;
    let wire = TtyWire::new(rt, reader, writer, is_terminal, Role::Sender);
    send_through(rt, wire, outgoing, out, teller)
}

/// Sends files over a line, and prints how the sender has ended. Why one of them could not be
/// read it says in a cell.
fn send_line_telling<'a, R, O, E>(
    rt: &'a R,
    asked: OnLine<'a, SendOrder<'a>>,
    unread: &'a UnreadCell,
    out: &mut O,
    teller: &mut Teller<E>,
) -> Result<u8, CommandFault>
where
    R: Files<File = File> + Clock + io::Input + Print + AllocGlobal,
    R::Reader: IsTerminal,
    O: Output,
    E: Write + Drop,
    ensures { SendGives asked.entry.order.shape
        (map (λ path. path.now) asked.entry.order.paths.now)
        (page (O.contents out.old) (O.failures out.old)) result
        (page (O.contents out.new) (O.failures out.new)) }
{
    let OnLine { line, order } = asked;
    let mut outgoing = outgoing_of(rt, order, unread, teller)?;
    match line {
        Some(path) => {
            let file = open_line(rt, path, teller)?;
            let parts = TtyParts {
                reader: &file,
                writer: &file,
                is_terminal: true,
            };
            send_at(rt, parts, &mut outgoing, out, teller)
        }
        None => {
            let reader = rt.reader();
            let is_terminal = reader.is_terminal();
            let parts = TtyParts {
                reader,
                writer: io::writer(rt),
                is_terminal,
            };
            send_at(rt, parts, &mut outgoing, out, teller)
        }
    }
}

/// Sends files over a line, and prints how the sender has ended.
pub fn send_line<R, O, E>(
    rt: &R,
    asked: OnLine<'_, SendOrder<'_>>,
    out: &mut O,
    teller: &mut Teller<E>,
) -> Result<u8, CommandFault>
where
    R: Files<File = File> + Clock + io::Input + Print + AllocGlobal,
    R::Reader: IsTerminal,
    O: Output,
    E: Write + Drop,
    ensures { SendGives asked.entry.order.shape
        (map (λ path. path.now) asked.entry.order.paths.now)
        (page (O.contents out.old) (O.failures out.old)) result
        (page (O.contents out.new) (O.failures out.new)) }
{
    let unread = UnreadCell::new(None);
    send_line_telling(rt, asked, &unread, out, teller)
}
