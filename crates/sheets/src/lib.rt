//! The third layer of the sheet reader: the label book, taking names and laying words.
#![tactic(auto)]

pub mod assembly;
pub mod book;
pub mod fault;
pub mod label;
pub mod placed;
mod reader;
mod walk;

pub use book::{ClosedBook, OpenBook};
pub use fault::{LayingFault, SheetFault};
pub use label::Label;
