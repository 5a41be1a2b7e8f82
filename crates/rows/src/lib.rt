//! The registers of the computer as text: rows under a heading, lines by name, and bytes that do not print.
//!
//! A text is a `Vec` of bytes: its exact bytes are promised and digits are bytes, so that a `String` would be no plainer.
#![tactic(auto)]

mod cell;
pub mod clock;
mod column;
pub mod cycle;
pub mod escape;
pub mod lines;
mod piece;
pub mod word;

pub use clock::{ClockRow, clock_heading, clock_row};
pub use cycle::{CycleRow, cycle_heading, cycle_row};
pub use escape::escaped;
pub use lines::{hidden_lines, visible_lines};
pub use word::word_row;

#[cfg(test)]
mod tests;
