//! Files of one batch that have one name.

use crate::sending::last_part;
use std::alloc::Global;
use std::collections::BTreeMap;
use std::io::Write;
use ym_teller::Teller;
use ym_text::FileMessage;

/// Tells of the first two files that are sent under one name, if any are: no receiver can keep
/// both. Where nobody looks it does not look either.
pub(crate) fn tell_same_names<E: Write + Drop>(
    alloc: Global,
    paths: &[&str],
    teller: &mut Teller<E>,
) {
    if !teller.is_loud {
        return;
    }
    let mut named: BTreeMap<&str, &str> = BTreeMap::new(alloc);
    for &path in paths {
        let name = last_part(path);
        match named.insert(name, path) {
            Ok(None) => {}
            Ok(Some(first)) => {
                teller.tell(FileMessage::SameName(first, path, name));
                return;
            }
            Err(_) => return,
        }
    }
}
