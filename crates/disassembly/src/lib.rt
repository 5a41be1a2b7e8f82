//! Words of the Basic Computer as rows of a program sheet.
#![tactic(auto)]

mod name;
mod row;
#[cfg(test)]
mod tests;

pub use name::is_listed;
pub use row::disassemble;
