//! The cues of a script, as far as they are left.
ghost use Rattle.std.specs.Prelude.{◌≤◌, vec_len};

use crate::cue::{Cue, Wait};

mod methods;

/// The cues that are left, and the beats since the last character.
#[derive(Drop)]
pub(crate) struct Cues {
    all: Vec<Cue>,
    /// The place of the next cue.
    // `remaining` lends the cues left as one slice, which no owning iterator of the library does.
    next: usize,
    /// The beats, as far as they are counted.
    count: Wait,
    ghost within: { next ≤ vec_len all },
}
