//! The words behind a program's name.
#![tactic(auto)]

pub mod options;
mod reading;
#[cfg(test)]
mod tests;
mod told;
mod value;
mod word;

pub use options::{OptionFault, Options};
pub use reading::read_options;
