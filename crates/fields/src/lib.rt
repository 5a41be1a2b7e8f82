//! The first layer of the sheet reader: lines, their fields, and numbers.
#![tactic(auto)]

pub mod cursor;
pub mod fault;
pub mod lines;
pub mod number;
pub mod report;
pub mod text;
pub mod token;

pub use cursor::Cursor;
pub use fault::FieldFault;
pub use lines::Lines;
pub use report::Report;
pub use token::Token;
