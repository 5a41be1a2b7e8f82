//! The basic computer of M. Mano's textbook as definitions, clocked by gates and by whole cycles, and what holds of it; the
//! trait of the computers in code, and what they have in common.
#![tactic(auto)]

pub mod call;
pub mod cause;
pub mod computer;
mod port;
pub mod refusal;
pub mod registers;
mod skip;
pub mod theorems;
pub mod word;

pub use call::Call;
pub use computer::Computer;
pub use refusal::Refusal;
pub use registers::{Port, Registers, Visible};
