//! What a peer is tried by, what the reference does at each step, and what comes of a case. The
//! reference is the receiver and the sender of `ym_core`. Nothing here reads a line or writes one.
#![tactic(auto)]

mod act;
mod case;
mod cases;
mod claims;
mod evidence;
mod finding;
mod frames;
mod notes;
mod parcel;
mod report;
mod said;
mod sender_twin;
mod spot;
mod twins;
mod twist;

pub use act::{Act, answered, asked_of_sender, delivered};
pub use case::Case;
pub use cases::{Peer, RECEIVER_CASES, SENDER_CASES, cases_of};
pub use claims::Claims;
pub use evidence::Evidence;
pub use finding::Finding;
pub use frames::{JUNK, carried};
pub use notes::{Fits, Notes, Passage, asked_of_receiver};
pub use parcel::Parcel;
pub use report::{Avoided, CaseJson, CaseLine, StartLine, Sums, Tried};
pub use said::answer_bytes;
pub use sender_twin::SenderTwin;
pub use spot::{Spot, spot_of};
pub use twins::{Answers, Twins, gave};
pub use twist::Twist;
