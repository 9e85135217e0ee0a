//! What passed on a line, told: which frame stands where, what each frame was to its session, and
//! what went wrong. It reads no file and prints nothing.
#![tactic(auto)]

mod answered;
mod asking;
mod passed;
mod sent;
mod sign_of;
mod signs;
mod talk;
mod told;
mod verdict;

pub use answered::{AnswerLine, tell_answer};
pub use asking::Asking;
pub use passed::{Passed, damage_len, prefix_of};
pub use sent::{SentLine, SentTold, tell_sent};
pub use sign_of::{answer_sign, is_zmodem, sent_sign};
pub use signs::{REFUSALS, Sign, Signs};
pub use talk::{Fate, Footing, Meaning, fate_behind, follows, is_ahead, is_parting, meaning_of};
pub use told::{FrameKind, SendPosition, Told, tell};
pub use verdict::{Verdict, Ways, verdict_of};
