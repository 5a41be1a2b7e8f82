//! The second layer of the sheet reader: what a line of fields says.
#![tactic(auto)]

mod code;
pub mod fault;
mod line;
mod operand;
mod reader;
pub mod statement;
mod word;

pub use fault::StatementFault;
pub use line::read_line;
pub use statement::{Code, Name, Operand, Operation, Statement};
