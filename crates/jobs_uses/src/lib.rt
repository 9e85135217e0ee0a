//! Tests of what `ym_play`, `ym_sending` and `ym_receiving` do, print and answer. They stand here
//! and not in those crates, which would be proved twice for them. A table of scripts is played by
//! the program, in `tests/words`.
#![tactic(auto)]

#[cfg(test)]
mod jobs;
#[cfg(test)]
mod play;
