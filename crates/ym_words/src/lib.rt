//! The words of the command line, and the job that they ask for.
#![tactic(auto)]

mod args;
mod command;
mod help;
mod job;
mod parts;
mod port;
mod words;

pub use job::{Job, JobFault, ReceiveFlags, StoreFlags, TellFlags, job_of};
pub use port::port_number;
