//! What the program tells people beside its results, in words: what it does, how far a file is,
//! whom it waits for, and why it failed. A line that tells how far a file is fits its terminal.
#![tactic(auto)]

mod came;
mod cause;
mod cells;
mod coming;
mod echo_message;
mod end_message;
mod file_message;
mod line_message;
mod moment;
mod progress;
mod reason;
mod rights;
mod shown;
mod shown_out;
mod tty_message;
mod waiting;

pub use came::{Came, Lately, Sight};
pub use cells::progress_line;
pub use coming::Coming;
pub use echo_message::EchoMessage;
pub use end_message::EndMessage;
pub use file_message::FileMessage;
pub use line_message::LineMessage;
pub use moment::{DAY_SECONDS, Moment};
pub use progress::{Brief, Detail, Progress, Took, WholeFile, rate_of};
pub use reason::Reason;
pub use rights::Rights;
pub use shown::Shown;
pub use shown_out::ShownOut;
pub use tty_message::TtyMessage;
pub use waiting::{Awaited, Waiting, waiting_line};
