//! Tests of the two ends: of the machine and its laws, of either end as a state machine, and of a
//! sender and a receiver with their files. They stand in a crate of their own, since a crate that
//! has tests is proved once more with them.
#![tactic(auto)]

#[cfg(test)]
mod tests;
