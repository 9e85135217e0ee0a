//! What `loop` does for its words: a session over a connection of the program to itself.
#![tactic(auto)]

mod looped;

pub use looped::looped_session;
