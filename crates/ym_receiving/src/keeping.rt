//! `receive`, from one connection or, with `--keep`, from one after another.

ghost use Rattle.std.specs.Prelude.{◌≡◌};
ghost use Rattle.ym_receiving.specs.Keeping.{HoldsSession, KeepsOn, ReceivesSo};
ghost use Rattle.ym_receiving.specs.Receiving.{ReceiveGives, SessionGives};
ghost use Rattle.ym_answer.specs.Page.{page};

use crate::connections::{Connections, listen, take_told};
use crate::receiving::{Order, Recorded, look_at, receive_through};
use std::alloc::AllocGlobal;
use std::fs::{File, Files};
use std::io::Write;
use std::net::{Net, TcpListener, TcpStream};
use std::time::Clock;
use ym_answer::CommandFault;
use ym_ends::AtPort;
use ym_host::SocketWire;
use ym_port::Role;
use ym_record::{Beside, Records};
use ym_streams::{Output, Outputs, StreamFault};
use ym_teller::Teller;

/// Receives the files of one connection, and prints them and how the receiver has ended.
fn receive_over<R, O, E>(
    rt: &R,
    stream: TcpStream,
    asked: Recorded<'_, '_, '_>,
    out: &mut O,
    teller: &mut Teller<E>,
) -> Result<u8, CommandFault>
where
    R: Files<File = File> + Clock + AllocGlobal,
    O: Output,
    E: Write + Drop,
    ensures { SessionGives asked.entry.order.confirm
        (page (O.contents out.old) (O.failures out.old)) result
        (page (O.contents out.new) (O.failures out.new)) }
{
    let wire = SocketWire::new(rt, stream, Role::Receiver);
    receive_through(rt, wire, asked, out, teller)
}

/// The same of one of several connections, also where that ends in a fault: its line goes to `err`.
fn hold_session<R, O, F, E>(
    rt: &R,
    stream: TcpStream,
    asked: Recorded<'_, '_, '_>,
    outputs: &mut Outputs<O, F>,
    teller: &mut Teller<E>,
) -> Result<(), StreamFault>
where
    R: Files<File = File> + Clock + AllocGlobal,
    O: Output,
    F: Output,
    E: Write + Drop,
    ensures { HoldsSession asked.entry.order.confirm
        (page (O.contents outputs.old.out) (O.failures outputs.old.out))
        (page (F.contents outputs.old.err) (F.failures outputs.old.err)) result
        (page (O.contents outputs.new.out) (O.failures outputs.new.out))
        (page (F.contents outputs.new.err) (F.failures outputs.new.err)) }
{
    asked.records.begin(rt, rt.alloc(), teller);
    match receive_over(rt, stream, asked, &mut outputs.out, teller) {
        Ok(_) => Ok(()),
        Err(fault) => {
            outputs.err.put_line(fault)?;
            Ok(())
        }
    }
}

/// The connections that files are received from.
#[derive(Drop)]
pub struct Intake<'a, C> {
    /// They come from here, one after another.
    pub connections: C,
    /// What is recorded of them: each is in a file of its own, where that is wanted.
    pub records: Records<'a>,
    /// What a receiver is asked for, the same at each.
    pub order: Order<'a>,
}

/// Receives files from one connection after another, of which none was taken yet, and prints them
/// and how each receiver has ended, also where it ended in a fault, whose line goes to `err`. It
/// ends where no connection can be taken any more, for a reason that does not pass.
pub fn receive_each<R, C, O, F, E>(
    rt: &R,
    intake: &mut Intake<'_, C>,
    outputs: &mut Outputs<O, F>,
    teller: &mut Teller<E>,
) -> Result<u8, CommandFault>
where
    R: Files<File = File> + Clock + AllocGlobal,
    C: Connections,
    O: Output,
    F: Output,
    E: Write + Drop,
    requires { C.taken intake.old.connections ≡ 0 }
    ensures { KeepsOn intake.old.order.confirm (C.taken intake.new.connections)
        (C.failures intake.old.connections) (C.failures intake.new.connections)
        (C.refusal intake.new.connections)
        (page (O.contents outputs.old.out) (O.failures outputs.old.out))
        (page (F.contents outputs.old.err) (F.failures outputs.old.err)) result
        (page (O.contents outputs.new.out) (O.failures outputs.new.out))
        (page (F.contents outputs.new.err) (F.failures outputs.new.err)) }
{
    let order = intake.order;
    for _session in 0..u64::MAX {
        let stream = take_told(&mut intake.connections, teller)?;
        let records = &mut intake.records;
        hold_session(rt, stream, Recorded { order, records }, outputs, teller)?;
    }
    Ok(0)
}

/// Receives files from one connection, of which none was taken yet, and prints them and how the
/// receiver has ended.
fn receive_first<R, C, O, E>(
    rt: &R,
    intake: &mut Intake<'_, C>,
    out: &mut O,
    teller: &mut Teller<E>,
) -> Result<u8, CommandFault>
where
    R: Files<File = File> + Clock + AllocGlobal,
    C: Connections,
    O: Output,
    E: Write + Drop,
    requires { C.taken intake.old.connections ≡ 0 }
    ensures { ReceiveGives intake.old.order.confirm
        (page (O.contents out.old) (O.failures out.old)) result
        (page (O.contents out.new) (O.failures out.new)) }
{
    let order = intake.order;
    let stream = take_told(&mut intake.connections, teller)?;
    let records = &mut intake.records;
    receive_over(rt, stream, Recorded { order, records }, out, teller)
}

/// Receives files from connections of which none was taken yet, and none has failed, as it is asked
/// for.
fn receive_from<R, C, O, F, E>(
    rt: &R,
    mut intake: Intake<'_, C>,
    outputs: &mut Outputs<O, F>,
    teller: &mut Teller<E>,
) -> Result<u8, CommandFault>
where
    R: Files<File = File> + Clock + AllocGlobal,
    C: Connections + Drop,
    O: Output,
    F: Output,
    E: Write + Drop,
    requires taken { C.taken intake.connections ≡ 0 }
    requires failed { C.failures intake.connections ≡ 0 }
    ensures { ReceivesSo intake.entry.order.keep intake.entry.order.confirm
        (page (O.contents outputs.old.out) (O.failures outputs.old.out))
        (page (F.contents outputs.old.err) (F.failures outputs.old.err)) result
        (page (O.contents outputs.new.out) (O.failures outputs.new.out))
        (page (F.contents outputs.new.err) (F.failures outputs.new.err)) }
{
    if intake.order.keep {
        receive_each(rt, &mut intake, outputs, teller)
    } else {
        receive_first(rt, &mut intake, &mut outputs.out, teller)
    }
}

/// Receives files into a folder at a port as it is asked for: from whoever connects first, or from
/// one connection after another, as [`receive_each`] does.
pub fn receive_as_asked<R, O, F, E>(
    rt: &R,
    asked: AtPort<Order<'_>>,
    outputs: &mut Outputs<O, F>,
    teller: &mut Teller<E>,
) -> Result<u8, CommandFault>
where
    R: Files<File = File> + Net<Listener = TcpListener, Stream = TcpStream> + Clock + AllocGlobal,
    O: Output,
    F: Output,
    E: Write + Drop,
    ensures { ReceivesSo asked.entry.order.keep asked.entry.order.confirm
        (page (O.contents outputs.old.out) (O.failures outputs.old.out))
        (page (F.contents outputs.old.err) (F.failures outputs.old.err)) result
        (page (O.contents outputs.new.out) (O.failures outputs.new.out))
        (page (F.contents outputs.new.err) (F.failures outputs.new.err)) }
{
    let AtPort { port, order } = asked;
    look_at(rt, rt.alloc(), order.dir, teller)?;
    let records = Records::open(rt, rt.alloc(), order.record_path, Beside::Received, teller)?;
    let connections = listen(rt, port, teller)?;
    let intake = Intake {
        connections,
        records,
        order,
    };
    receive_from(rt, intake, outputs, teller)
}
