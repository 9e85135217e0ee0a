//! A picture of a session: its sequence chart, in SVG, of the lines that tell it.
#![tactic(auto)]

mod arrow;
mod chart;
mod parts;
mod picture;
mod row;
mod text;

pub use chart::{Chart, MOST_ENDS, MOST_LINE, MOST_ROWS};
pub use text::{MOST_TEXT, escaped};
