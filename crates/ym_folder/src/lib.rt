//! A folder that files are stored in: what is asked of it, a sink that stores each file whole or
//! not at all.
#![tactic(auto)]

mod dir_sink;
mod folder;
pub mod laws;
mod one_name;
mod open_part;
mod part;
mod place;
mod probe;
mod store_fault;
mod write_behind;

pub use dir_sink::{DirSink, Durability, Leftover};
pub use folder::Folder;
pub use part::part_name;
pub use place::FilePlace;
pub use probe::check_folder;
pub use store_fault::StoreFault;
