//! What a command of the program answers: the fault line that it ends in, its status, and the line
//! of each file.
#![tactic(auto)]

mod command_fault;
mod lines;

pub use command_fault::CommandFault;
pub use lines::FileLine;
