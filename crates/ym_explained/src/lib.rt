//! What `explain` does, prints and answers: it tells what passed on a line, and draws it.
//! Read first: `explain_and_draw` (`explaining.rt`).
#![tactic(auto)]

mod answering;
mod chart_file;
mod charted;
mod explaining;
mod opened;
mod untold;

pub use charted::{Charted, Draw};
pub use explaining::{ExplainOrder, explain_and_draw};
