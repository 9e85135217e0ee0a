//! What is told of each frame and answer that passed on a line: which line tells it, where both
//! ends stand behind it. It reads no file and writes none.
#![tactic(auto)]

mod line;
mod moment;
mod prefix;
mod run;
mod runs;
mod scene;
mod standing;
mod stated;
mod way;
mod words;

pub use line::{Telling, line_of};
pub use moment::CaptureMoment;
pub use prefix::{BufferedPrefix, ENOUGH, Settle, prefix_back, prefix_there};
pub use run::{Run, RunEnd, SHOWN, Tail};
pub use scene::{Dated, Scene};
pub use standing::BothStanding;
pub use stated::{Announced, Stated, Stretch};
pub use way::Direction;
