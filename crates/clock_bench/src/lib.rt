//! The clock bench: a computer that is clocked, put together with a memory and a line, and run from a panel.
#![tactic(auto)]

pub mod clock_computer;
#[cfg(test)]
mod tests;

pub use clock_computer::ClockComputer;
