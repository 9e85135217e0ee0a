//! `rb`: files over a terminal, or over standard input and output.

ghost use Rattle.ym_answer.specs.Page.{page};
ghost use Rattle.ym_receiving.specs.Receiving.{ReceiveGives, SessionGives};

use crate::receiving::{Order, Recorded, look_at, receive_through};
use std::alloc::AllocGlobal;
use std::fs::{File, Files};
use std::io;
use std::io::{IsTerminal, Print, Read, Write};
use std::time::Clock;
use ym_answer::CommandFault;
use ym_ends::{OnLine, open_line};
use ym_host::TtyWire;
use ym_port::Role;
use ym_record::{Beside, Records};
use ym_streams::Output;
use ym_teller::Teller;

/// A terminal, or what stands for one.
struct Terminal<I, U> {
    reader: I,
    writer: U,
    /// Whether it is one.
    is_terminal: bool,
}

/// Receives the files that come over a terminal, and prints them and how the receiver has ended.
fn receive_at<R, I, U, O, E>(
    rt: &R,
    terminal: Terminal<I, U>,
    asked: Recorded<'_, '_, '_>,
    out: &mut O,
    teller: &mut Teller<E>,
) -> Result<u8, CommandFault>
where
    R: Files<File = File> + Clock + AllocGlobal,
    I: Read + Drop,
    U: Write + Drop,
    O: Output,
    E: Write + Drop,
    ensures { SessionGives asked.entry.order.confirm
        (page (O.contents out.old) (O.failures out.old)) result
        (page (O.contents out.new) (O.failures out.new)) }
{
    let Terminal {
        reader,
        writer,
        is_terminal,
    } = terminal;
    let wire = TtyWire::new(rt, reader, writer, is_terminal, Role::Receiver);
    receive_through(rt, wire, asked, out, teller)
}

/// The same as [`receive_line`] into a folder that was looked at, with what is recorded.
fn receive_over<R, O, E>(
    rt: &R,
    asked: OnLine<'_, Order<'_>>,
    records: &mut Records<'_>,
    out: &mut O,
    teller: &mut Teller<E>,
) -> Result<u8, CommandFault>
where
    R: Files<File = File> + Clock + io::Input + Print + AllocGlobal,
    R::Reader: IsTerminal,
    O: Output,
    E: Write + Drop,
    ensures { ReceiveGives asked.entry.order.confirm
        (page (O.contents out.old) (O.failures out.old)) result
        (page (O.contents out.new) (O.failures out.new)) }
{
    let OnLine { line, order } = asked;
    match line {
        Some(path) => {
            let file = open_line(rt, path, teller)?;
            let terminal = Terminal {
                reader: &file,
                writer: &file,
                is_terminal: true,
            };
            receive_at(rt, terminal, Recorded { order, records }, out, teller)
        }
        None => {
            let reader = rt.reader();
            let is_terminal = reader.is_terminal();
            let terminal = Terminal {
                reader,
                writer: io::writer(rt),
                is_terminal,
            };
            receive_at(rt, terminal, Recorded { order, records }, out, teller)
        }
    }
}

/// Receives files into a folder over a line, and prints them and how the receiver has ended.
pub fn receive_line<R, O, E>(
    rt: &R,
    asked: OnLine<'_, Order<'_>>,
    out: &mut O,
    teller: &mut Teller<E>,
) -> Result<u8, CommandFault>
where
    R: Files<File = File> + Clock + io::Input + Print + AllocGlobal,
    R::Reader: IsTerminal,
    O: Output,
    E: Write + Drop,
    ensures { ReceiveGives asked.entry.order.confirm
        (page (O.contents out.old) (O.failures out.old)) result
        (page (O.contents out.new) (O.failures out.new)) }
{
    let order = asked.order;
    look_at(rt, rt.alloc(), order.dir, teller)?;
    let mut records = Records::open(rt, rt.alloc(), order.record_path, Beside::Received, teller)?;
    receive_over(rt, asked, &mut records, out, teller)
}
