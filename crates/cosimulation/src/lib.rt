//! Both computers side by side: a list of calls on the one that is clocked, and their short list on its twin that makes
//! whole cycles.
#![tactic(auto)]

pub mod cosimulation;
mod short_list;
pub mod side_by_side;

pub use cosimulation::{Cosimulation, Outcome};
pub use side_by_side::cosimulate;
