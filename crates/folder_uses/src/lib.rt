//! A folder in memory, and the sink of `ym_folder` over it.
#![tactic(auto)]

mod mem_folder;
mod stored;

pub use mem_folder::{MemFile, MemFolder, MemOpen};
pub use stored::store;
