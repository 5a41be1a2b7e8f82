//! The line that plays a script.
use crate::cues::Cues;
use crate::paper::Paper;

mod beat;
mod methods;
mod play;

/// A line that hands over the characters of its cues, each after its wait, and prints on a paper of fixed size.
#[derive(Drop)]
pub struct ScriptLine {
    cues: Cues,
    paper: Paper,
}
