//! Who is told what the program does: somebody who looks at a terminal, or nobody.
#![tactic(auto)]

mod teller;

pub use teller::{Look, Teller};
