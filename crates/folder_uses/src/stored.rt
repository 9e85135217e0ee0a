//! A file that is stored in a folder in memory.

ghost use Rattle.std.specs.Prelude.{◌≡◌, ◌<◌, ℕ, List, Some, None, OnOk, length as list_length};
ghost use Rattle.ym_folder.specs.DirSink.{stands, IsSafe};

use crate::mem_folder::MemFolder;
use ym_file::{Sink, SinkFault};
use ym_folder::DirSink;
use ym_folder::laws::nothing_is_overwritten;
use ym_header::Header;

/// Stores a file of these bytes by a sink. Whether it succeeds or not, each name that was there
/// keeps its bytes. Where it succeeds, the name of the file has exactly these.
pub fn store(sink: &mut DirSink<MemFolder>, header: Header, bytes: &[u8]) -> Result<(), SinkFault>
    requires closed { sink.old.opened ≡ None }
    requires without_part { sink.old.part ≡ None }
    requires some { 0 < list_length bytes.now }
    requires length { header.length ≡ list_length bytes.now }
    ensures stays { (name held : List ℕ) → IsSafe sink.old.leftover name →
        stands sink.old name ≡ Some held → stands sink.new name ≡ Some held }
    ensures whole { OnOk result (stands sink.new header.name ≡ Some bytes.now) }
{
    nothing_is_overwritten();
    sink.begin(header)?;
    // It is known what stands in this folder.
    let _ = sink.folder();
    sink.add(bytes)?;
    sink.commit()?;
    Ok(())
}
