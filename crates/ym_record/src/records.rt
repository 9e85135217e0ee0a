//! The records that a command makes: none, or one for each of its connections.

ghost use Rattle.std.specs.Prelude.{◌≡◌, [], true, false, None, IfOk, is_some, string_bytes};
ghost use Rattle.ym_record.specs.RecordNames.{name_of};

use crate::message::RecordMessage;
use crate::opening::{Beside, RecordRefusal, WhatIsThere, open_record};
use crate::recorder::Recorder;
use std::alloc::{AllocError, Global};
use std::fmt::Display;
use std::fs::{File, Files};
use std::io;
use std::io::{ErrorKind, Write};
use ym_teller::Teller;
use ym_text::Reason;

/// The records that a command makes: none, or one for each of its connections, as far as the files
/// for them can be written.
#[derive(Drop)]
pub struct Records<'a> {
    /// The path that was asked for.
    path: Option<&'a str>,
    /// How many connections were begun.
    begun: u64,
    /// The path of the file of the connection that was begun last.
    name: String,
    /// What is made of that connection.
    pub recorder: Recorder<File>,
}

/// The path of the file of the connection of this number. That of the first one is as it was asked
/// for, and that of a later one has its number behind it.
fn name_of(alloc: Global, path: &str, number: u64) -> Result<String, AllocError>
    ensures { IfOk result (λ name. string_bytes name ≡ name_of path.now number) }
{
    if number < 2 {
        String::from_str(alloc, path)
    } else {
        format!(in alloc; "{path}.{number}")
    }
}

/// What is told of a file that is refused.
fn message_of<'a>(path: &'a str, refusal: &RecordRefusal) -> RecordMessage<'a> {
    match refusal {
        RecordRefusal::Dash => RecordMessage::Dash,
        RecordRefusal::IsSent => RecordMessage::IsSent(path),
        RecordRefusal::IsPart => RecordMessage::IsPart(path),
        RecordRefusal::IsThere => RecordMessage::IsThere(path),
        RecordRefusal::InUse => RecordMessage::InUse(path),
        RecordRefusal::System(error) => RecordMessage::CannotOpen(path, Reason::of(error)),
    }
}

/// The same as an error.
fn error_of(refusal: RecordRefusal) -> io::Error {
    match refusal {
        RecordRefusal::Dash | RecordRefusal::IsSent | RecordRefusal::IsPart => {
            io::Error::from(ErrorKind::InvalidInput)
        }
        RecordRefusal::IsThere => io::Error::from(ErrorKind::AlreadyExists),
        RecordRefusal::InUse => io::Error::from(ErrorKind::ResourceBusy),
        RecordRefusal::System(error) => error,
    }
}

/// Tells a line also where nobody looks: that what the words ask for beside a transfer is not done.
fn warn<E: Write + Drop, D: Display + Drop>(teller: &mut Teller<E>, text: D)
    ensures { teller.new.is_loud ≡ teller.old.is_loud }
{
    let is_loud = teller.is_loud;
    teller.is_loud = true;
    teller.tell(text);
    teller.is_loud = is_loud;
}

/// A recorder of the file at this path, or why there is none told.
fn recorder_at<R: Files<File = File>, E: Write + Drop>(
    rt: &R,
    alloc: Global,
    path: &str,
    there: WhatIsThere<'_>,
    teller: &mut Teller<E>,
) -> io::Result<Recorder<File>>
    ensures made { IfOk result (λ it. is_some it.to ≡ true) }
    ensures none_waits { IfOk result (λ it. it.lines ≡ []) }
{
    match open_record(rt, path, there) {
        Ok(file) => Ok(Recorder::new(alloc, file)?),
        Err(refusal) => {
            warn(teller, message_of(path, &refusal));
            Err(error_of(refusal))
        }
    }
}

impl<'a> Records<'a> {
    /// No record is made.
    fn none(alloc: Global) -> Records<'a>
        ensures none { is_some result.recorder.to ≡ false }
        ensures asked { result.path ≡ None }
    {
        Records {
            path: None,
            begun: 0,
            name: String::new(alloc),
            recorder: Recorder::none(alloc),
        }
    }

    /// The record of the first connection, where a path is given. It is none of the files that are
    /// sent or received. What its file has stays until [`Records::start`].
    ///
    /// # Errors
    ///
    /// Where it cannot be written, which is told, and at want of memory.
    pub fn open<R: Files<File = File>, E: Write + Drop>(
        rt: &R,
        alloc: Global,
        path: Option<&'a str>,
        beside: Beside<'_>,
        teller: &mut Teller<E>,
    ) -> io::Result<Records<'a>>
        ensures path { IfOk result (λ it. it.path ≡ path.entry) }
        ensures made { IfOk result (λ it. is_some it.recorder.to ≡ is_some path.entry) }
    {
        let Some(asked) = path else {
            return Ok(Records::none(alloc));
        };
        let name = name_of(alloc, asked, 1)?;
        let there = WhatIsThere::Goes(beside);
        let recorder = recorder_at(rt, alloc, name.as_str(), there, teller)?;
        Ok(Records {
            path,
            begun: 0,
            name,
            recorder,
        })
    }

    /// The file of the connection of this number takes the place of the one before it, or none
    /// where it cannot be written, or something is there: the one before may have stored that.
    fn turn_to<R: Files<File = File>, E: Write + Drop>(
        &mut self,
        rt: &R,
        alloc: Global,
        name: String,
        teller: &mut Teller<E>,
    )
        ensures path { self.new.path ≡ self.old.path }
    {
        self.recorder = match recorder_at(rt, alloc, name.as_str(), WhatIsThere::Stays, teller) {
            Ok(recorder) => recorder,
            Err(_) => Recorder::none(alloc),
        };
        self.name = name;
    }

    /// A connection begins, of as many as there may be. The record of the first one is there; that
    /// of a later one is begun, and where it cannot be written, that is told and none is made of
    /// it.
    pub fn begin<R: Files<File = File>, E: Write + Drop>(
        &mut self,
        rt: &R,
        alloc: Global,
        teller: &mut Teller<E>,
    )
        ensures path { self.new.path ≡ self.old.path }
        ensures none { self.old.path ≡ None → self.new.recorder ≡ self.old.recorder }
    {
        self.begun = self.begun.saturating_add(1);
        let Some(path) = self.path else {
            return;
        };
        if self.begun < 2 {
            return;
        }
        match name_of(alloc, path, self.begun) {
            Ok(name) => self.turn_to(rt, alloc, name, teller),
            Err(_) => self.recorder = Recorder::none(alloc),
        }
    }

    /// The line is there, and what passes on it is recorded from now on. What the file of the
    /// record had goes now, and not before: until the line is there the words may be found wrong.
    pub fn start(&mut self)
        ensures path { self.new.path ≡ self.old.path }
        ensures none { is_some self.old.recorder.to ≡ false → is_some self.new.recorder.to ≡ false }
    {
        self.recorder.make_anew();
    }

    /// A connection has ended. What waits is written. That the record is not whole is told, and
    /// where the transfer is not, who tells what passed.
    pub fn end<E: Write + Drop>(&mut self, is_whole: bool, teller: &mut Teller<E>)
        ensures path { self.new.path ≡ self.old.path }
        ensures none { is_some self.old.recorder.to ≡ false → is_some self.new.recorder.to ≡ false }
        ensures none_waits { is_some self.new.recorder.to ≡ true → self.new.recorder.lines ≡ [] }
    {
        self.recorder.write_out();
        if self.path.is_none() {
            return;
        }
        let name = self.name.as_str();
        if let Some(error) = self.recorder.fault() {
            warn(teller, RecordMessage::Ended(name, Reason::of(&error)));
        }
        if !is_whole {
            teller.tell(RecordMessage::Explain(name));
        }
    }
}
