//! Both ends of a transfer as state machines: what a delivery makes of an end, what it replies, and
//! what its host has to do. No function takes memory, a file or a port.
#![tactic(auto)]

mod ask;
mod batch_shape;
mod delivery;
mod hearing;
mod position;
mod receiver;
mod scan;
mod stage;
mod stand;
mod standing;
mod state;

pub use ask::{Ask, Step};
pub use batch_shape::BatchShape;
pub use delivery::{Heard, HeardRef};
pub use hearing::{heard, heard_in};
pub use position::{Mode, Position, first_position, next_position};
pub use receiver::ReceiverCore;
pub use scan::{Scan, Stop, read_delivery};
pub use stage::{OpenFile, Stage};
pub use stand::Stand;
pub use standing::{SendStep, Standing};
pub use state::{RecvState, SendState};
pub use ym_machine::Confirm;
