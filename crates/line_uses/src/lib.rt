//! Tests of files on their way: sources and sinks of any kind, growths of memory that are refused
//! to an engine and to a run, and the port over a line with a clock. What is a table of cases
//! stands in `line_cases`.
#![tactic(auto)]

#[cfg(test)]
mod tests;
