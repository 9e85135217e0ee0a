//! Both ends of a transfer, what an end knows of its line, frames, the check and block 0, for
//! callers in C. Nothing here takes memory, keeps anything between calls or calls back. Each
//! function returns, whatever stands in what it is given.
#![tactic(auto)]

mod codes;
mod feeding;
mod frames;
mod headers;
mod line;
mod reader;
mod receiver;
mod sender;
mod stand;
mod standing;

pub use frames::YmFront;
pub use headers::YmHeader;
pub use reader::YmReader;
pub use receiver::{YmAsk, YmReceiver};
pub use sender::{YmFill, YmSender};
pub use stand::YmStand;
