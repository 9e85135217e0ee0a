//! A source that tells why it could not read its file.

use std::alloc::Global;
use std::cell::Cell;
use std::fs::{File, Files};
use std::io;
use std::io::Write;
use ym_file::{Source, SourceFault};
use ym_host::FileSource;
use ym_teller::Teller;
use ym_text::{FileMessage, Reason};

/// Where the sources of a batch say why one of them has failed. That ends the batch.
pub(crate) type UnreadCell = Cell<Option<Reason>>;

/// The source of the file at a path. A sender tells no more than that a source failed, so it says
/// why where the sender's end is told.
#[derive(Drop)]
pub(crate) struct ToldSource<'c, 'a, R: Files<File = File>> {
    /// The source.
    pub(crate) source: FileSource<'a, &'a R>,
    /// Where it says why it has failed.
    pub(crate) unread: &'c UnreadCell,
}

impl<'c, 'a, R: Files<File = File>> ToldSource<'c, 'a, R> {
    /// Says why it failed first.
    #[cold]
    #[inline(never)]
    fn explain(&self) {
        if let Some(error) = self.source.first_fault() {
            self.unread.set(Some(Reason::of(&error)));
        }
    }
}

impl<'c, 'a, R: Files<File = File>> Source for ToldSource<'c, 'a, R> {
    ghost size = { λ s. s.source.size };

    ghost bytes = { λ s. s.source.told };

    ghost failures = { λ s. s.source.failures };

    ghost fills = { λ s. s.source.fills };

    fn length(&self) -> u64 {
        self.source.length()
    }

    #[inline(always)]
    fn fill(&mut self, at: u64, into: &mut [u8]) -> Result<(), SourceFault> {
        let filled = self.source.fill(at, into);
        if filled.is_err() {
            self.explain();
        }
        filled
    }
}

/// What the files of a batch are opened by.
#[derive(Drop)]
pub(crate) struct Opener<'c, 'a, R> {
    /// The system.
    pub(crate) rt: &'a R,
    /// Where memory is taken from.
    pub(crate) alloc: Global,
    /// Where their sources say why one of them has failed.
    pub(crate) unread: &'c UnreadCell,
}

/// The source of the file at this path, or why there is none told.
pub(crate) fn open_source<'c, 'a, R: Files<File = File>, E: Write + Drop>(
    opener: &Opener<'c, 'a, R>,
    path: &'a str,
    teller: &mut Teller<E>,
) -> io::Result<ToldSource<'c, 'a, R>> {
    let opened = FileSource::new(opener.rt, opener.alloc, path);
    if let Err(error) = &opened {
        teller.tell(FileMessage::CannotOpen(path, Reason::of(error)));
    }
    let source = opened?;
    Ok(ToldSource {
        source,
        unread: opener.unread,
    })
}
