use std::alloc::Global;
use std::test::Fail;

/// A script of this first line, the file `name` of 128 bytes, and further lines.
pub(super) fn with_file(alloc: Global, name: &str, rest: &str) -> Result<String, Fail> {
    let digits = "41".repeat(alloc, 128)?;
    Ok(format!(in alloc; "file {name} {digits}\n{rest}")?)
}
