//! Lines that fit a terminal.

ghost use Rattle.std.specs.Prelude.{◌≤◌, IfOk, false, chars, string_bytes};
ghost use Rattle.unicode_width.specs.Width.{str_width};

use crate::progress::{Brief, Detail, Progress};
use crate::shown::Shown;
use std::alloc::{AllocError, Global};
use unicode_width::UnicodeWidthStr;

/// So many cells of a name are shown at least, before anything else gives way to it.
const NAME_CELLS: usize = 12;

/// The front of a text, as much of it as takes at most so many cells of a terminal.
pub(crate) fn prefix(text: &str, cells: usize) -> &str
    ensures { str_width false (chars result.now) ≤ cells }
{
    let mut kept = "";
    for (end, _) in text.char_indices() {
        let more = &text[..end];
        if cells < more.width() {
            return kept;
        }
        kept = more;
    }
    if cells < text.width() { kept } else { text }
}

/// How far a file is, in as much detail as leaves so many cells to its name in a line.
fn told_in(
    alloc: Global,
    progress: Progress,
    name_cells: usize,
    columns: usize,
) -> Result<String, AllocError> {
    for detail in [
        Detail::All,
        Detail::NoBytes,
        Detail::NoRepeats,
        Detail::NoLeft,
    ] {
        let brief = Brief { progress, detail };
        let told = format!(in alloc; ": {brief}")?;
        if told.as_str().width().saturating_add(name_cells) <= columns {
            return Ok(told);
        }
    }
    let brief = Brief {
        progress,
        detail: Detail::Percent,
    };
    format!(in alloc; ": {brief}")
}

/// The line that tells how far the file of this name is. It takes at most so many cells of a
/// terminal: what gives way first are the numbers of bytes, then the blocks that were repeated, the
/// time left and the rate, unless it is enough to cut a long name.
pub fn progress_line(
    alloc: Global,
    name: &str,
    progress: Progress,
    columns: usize,
) -> Result<String, AllocError>
    ensures { IfOk result (λ line. str_width false (chars (string_bytes line)) ≤ columns) }
{
    let shown = Shown(name);
    let shown = format!(in alloc; "{shown}")?;
    let name_cells = shown.as_str().width().min(NAME_CELLS);
    let told = told_in(alloc, progress, name_cells, columns)?;
    let room = columns.saturating_sub(told.as_str().width());
    let name = prefix(shown.as_str(), room);
    let line = format!(in alloc; "{name}{told}")?;
    String::from_str(alloc, prefix(line.as_str(), columns))
}
