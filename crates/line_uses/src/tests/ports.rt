//! The port over a line with a clock: what is heard and when, what is waited for, and what is
//! dropped. Each module is named after the end that it tries.

mod line;
mod receiver;
mod sender;
