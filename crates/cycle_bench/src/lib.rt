//! The instruction bench: a computer that makes whole cycles.
#![tactic(auto)]

mod choice;
pub mod cycle_computer;
#[cfg(test)]
mod tests;

pub use cycle_computer::CycleComputer;
