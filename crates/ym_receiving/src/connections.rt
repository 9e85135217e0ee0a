//! The connections that `receive` takes.

ghost use Rattle.std.specs.Prelude.{◌≡◌, ◌<◌, ◌+◌, ◌-◌, ◌^◌, ℕ, false, OnOk, OnErr, IfErr, IfOk};
ghost use Rattle.std.specs.Prelude.{Option};
ghost use Rattle.std.specs.declared.io.Error.{Error};
ghost use Rattle.ym_file.specs.Counts.{Counted};
ghost use Rattle.ym_receiving.specs.Accept.{passes, gone, wanting, is_one_of};

use std::io::{ErrorKind, Write};
use std::net::{Ipv4Addr, Net, SocketAddr, TcpListener, TcpStream};
use std::time::{Clock, Duration};
use std::{fmt, io, thread};
use ym_teller::Teller;
use ym_text::LineMessage;

/// How many milliseconds pass before it is tried again to take a connection.
const PAUSE_MS: u64 = 100;

/// Connections that come one after another.
pub trait Connections {
    /// How many were taken.
    ghost taken: { Self → ℕ };

    /// How often none could be taken: a number of 64 bits that stays at its greatest value.
    ghost failures: { Self → ℕ };

    /// Why none could be taken the last time, where that has happened.
    ghost refusal: { Self → Option Error };

    /// Takes the next one. It waits for it as long as it takes, also where none can be taken for a
    /// reason that passes. Such a reason is told once.
    fn take<E: Write + Drop>(&mut self, teller: &mut Teller<E>) -> io::Result<TcpStream>
        requires { taken self.old < 2 ^ 64 - 1 }
        ensures ok { OnOk result ((taken self.new ≡ taken self.old + 1)
            × (failures self.new ≡ failures self.old)) }
        ensures failed { OnErr result ((taken self.new ≡ taken self.old)
            × Counted (failures self.old) (failures self.new)) }
        ensures refused { IfErr result (λ error. refusal self.new ≡ Some error) }
        ensures lasts { IfErr result (λ error. passes error ≡ false) };

    /// The port of 127.0.0.1 that they come to.
    fn port(&self) -> u16;
}

/// Whether this number says that one connection cannot be had: EPERM, EINTR, EAGAIN, ENONET,
/// EPROTO, ENOPROTOOPT, EOPNOTSUPP, ENETDOWN, ENETUNREACH, ECONNABORTED, ECONNRESET, ETIMEDOUT,
/// EHOSTDOWN or EHOSTUNREACH.
fn is_gone(number: u32) -> bool
    ensures { result ≡ is_one_of gone number }
{
    matches!(
        number,
        1 | 4 | 11 | 64 | 71 | 92 | 95 | 100 | 101 | 103 | 104 | 110 | 112 | 113
    )
}

/// Whether it says that no memory or no descriptor is free for one: ENOMEM, ENFILE, EMFILE or
/// ENOBUFS.
fn is_wanting(number: u32) -> bool
    ensures { result ≡ is_one_of wanting number }
{
    matches!(number, 12 | 23 | 24 | 105)
}

/// Whether what kept a connection from being taken passes. What is wrong with the listener lasts.
fn passes(error: &io::Error) -> bool
    ensures { result ≡ passes error.now }
{
    match error.raw_os_error() {
        Some(number) => is_gone(number.unsigned_abs()) || is_wanting(number.unsigned_abs()),
        None => false,
    }
}

/// Why there is no connection for now.
#[derive(Clone, Copy)]
struct ForNow(LineMessage);

impl fmt::Display for ForNow {
    fn fmt<W: fmt::Write>(&self, f: &mut fmt::Formatter<W>) -> fmt::Result {
        let ForNow(message) = *self;
        write!(f, "{message}; trying again")
    }
}

/// A listener, with how many connections it has given, how often it failed, and why it last did.
#[derive(Drop)]
pub(crate) struct Listening<R: Clock + Drop> {
    clock: R,
    listener: TcpListener,
    port: u16,
    taken: u64,
    failed: u64,
    refusal: Option<io::Error>,
}

impl<R: Clock + Drop> Listening<R> {
    /// Takes the next connection, and waits out what passes.
    fn accept<E: Write + Drop>(&self, teller: &mut Teller<E>) -> io::Result<TcpStream>
        ensures { IfErr result (λ error. passes error ≡ false) }
    {
        let mut is_told = false;
        for _ in 0..u64::MAX {
            match self.listener.accept() {
                Ok((stream, _)) => return Ok(stream),
                Err(error) if passes(&error) => {
                    if !is_told {
                        teller.tell(ForNow(LineMessage::of_error(self.port, &error)));
                    }
                    is_told = true;
                    thread::sleep(&self.clock, Duration::from_millis(PAUSE_MS));
                }
                Err(error) => return Err(error),
            }
        }
        Err(io::Error::new(ErrorKind::TimedOut, "too many tries"))
    }
}

impl<R: Clock + Drop> Connections for Listening<R> {
    ghost taken = { λ l. l.taken };

    ghost failures = { λ l. l.failed };

    ghost refusal = { λ l. l.refusal };

    fn take<E: Write + Drop>(&mut self, teller: &mut Teller<E>) -> io::Result<TcpStream> {
        match self.accept(teller) {
            Ok(stream) => {
                self.taken += 1;
                Ok(stream)
            }
            Err(error) => {
                self.failed = self.failed.saturating_add(1);
                self.refusal = Some(error);
                Err(error)
            }
        }
    }

    fn port(&self) -> u16 {
        self.port
    }
}

/// Listens on 127.0.0.1 at this port, and tells that it does, or why not.
pub(crate) fn listen<'a, R, E>(
    rt: &'a R,
    port: u16,
    teller: &mut Teller<E>,
) -> io::Result<Listening<&'a R>>
where
    R: Net<Listener = TcpListener, Stream = TcpStream> + Clock,
    E: Write + Drop,
    ensures { IfOk result (λ l. (l.taken ≡ 0) × (l.failed ≡ 0)) }
{
    match TcpListener::bind(rt, SocketAddr::from((Ipv4Addr::LOCALHOST, port))) {
        Ok(listener) => {
            teller.tell(LineMessage::Listening(port));
            Ok(Listening {
                clock: rt,
                listener,
                port,
                taken: 0,
                failed: 0,
                refusal: None,
            })
        }
        Err(error) => {
            teller.tell(LineMessage::of_error(port, &error));
            Err(error)
        }
    }
}

/// Takes the next connection, and tells of it, or why there is none.
pub(crate) fn take_told<C: Connections, E: Write + Drop>(
    connections: &mut C,
    teller: &mut Teller<E>,
) -> io::Result<TcpStream>
    requires { C.taken connections.old < 2 ^ 64 - 1 }
    ensures ok { OnOk result ((C.taken connections.new ≡ C.taken connections.old + 1)
        × (C.failures connections.new ≡ C.failures connections.old)) }
    ensures failed { OnErr result ((C.taken connections.new ≡ C.taken connections.old)
        × Counted (C.failures connections.old) (C.failures connections.new)) }
    ensures refused { IfErr result (λ error. C.refusal connections.new ≡ Some error) }
    ensures lasts { IfErr result (λ error. passes error ≡ false) }
{
    match connections.take(teller) {
        Ok(stream) => {
            teller.tell(LineMessage::Connected);
            Ok(stream)
        }
        Err(error) => {
            teller.tell(LineMessage::of_error(connections.port(), &error));
            Err(error)
        }
    }
}
