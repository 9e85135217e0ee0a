//! Tests of what `ym_host` does with sockets, terminals and files, and of the sink of `ym_folder`
//! over a folder of the system. They stand here and not in those crates, which would be proved
//! twice for them.
#![tactic(auto)]

#[cfg(test)]
mod host;
