//! The second simulator's own keyboard and printer.
ghost use Rattle.std.specs.Prelude.{◌≤◌, vec_capacity};

use crate::second::key::Key;
use std::collections::VecDeque;

mod methods;

/// A keyboard with keys still to strike, and a roll of paper with what is printed on it.
#[derive(Drop)]
pub struct Teletype {
    keys: VecDeque<Key>,
    clocks: u32,
    roll: Vec<u8>,
    /// How many characters the roll takes; its memory is taken at the start.
    room: usize,
    ghost reserved: { room ≤ vec_capacity roll },
}
