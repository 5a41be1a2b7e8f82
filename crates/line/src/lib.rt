//! Character lines: what stands at the far side of a small computer's input and output registers.
//!
//! After the transfers of each clock the computer shows its line a [`Status`], and the line gives a [`Reply`]. What a line
//! means is its reply rule: for each list of statuses, the replies, one each, that it would give from now on.
#![tactic(auto)]

pub mod cue;
mod cues;
pub mod line;
mod paper;
pub mod playing;
pub mod quiet_line;
pub mod script_line;
pub mod status;

pub use cue::{Cue, Wait};
pub use line::Line;
pub use playing::play;
pub use quiet_line::QuietLine;
pub use script_line::ScriptLine;
pub use status::{Reply, Status};

#[cfg(test)]
mod tests;
