//! The machine of `ym_timing` as plain numbers that C keeps, of which any may stand in any field:
//! whatever stands there is a machine.
#![tactic(auto)]

mod bulk;
mod clearing;
mod codes;
mod line;
mod parts;

pub use bulk::{drop_bytes, hear_bytes};
pub use clearing::YmClearing;
pub use codes::{code_of_vain, flag_of, role_of, wait_of};
pub use line::YmLine;
pub use parts::{YmEar, YmHeard, YmHold, YmOut, YmPace, YmSent};
