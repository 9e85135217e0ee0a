//! Scripts and sessions: a batch of files and the rounds that carry it, read from text and played
//! on a line.
#![tactic(auto)]

mod command;
mod fault;
mod input;
pub mod laws;
mod limits;
mod play;
mod script;
mod sessions;
mod value;
mod words;

pub use fault::{PlayFault, ScriptWhy};
pub use limits::{MOST_ROUNDS, MOST_SCRIPT_BYTES};
pub use play::{Played, play_script};
pub use script::{Script, read_script};
pub use sessions::{session, session_over};
pub use ym_streams::{Input, Output, StreamFault};
