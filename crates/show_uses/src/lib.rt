//! Tests of what `ym_teller`, `ym_text` and `ym_show` tell and show. They stand here and not in
//! those crates, which would be proved twice for them.
#![tactic(auto)]

#[cfg(test)]
mod endings;
#[cfg(test)]
mod messages;
#[cfg(test)]
mod progress;
#[cfg(test)]
mod texts;
#[cfg(test)]
mod watches;
