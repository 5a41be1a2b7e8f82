//! Random memories and scripts.
use crate::random::dice::Dice;
use line::Cue;
use std::alloc::{AllocError, Global};

/// A word of opcode 7 with random marks; its HLT mark is mostly taken out.
fn marked_word(dice: &mut Dice) -> u16 {
    let word = 0x7000 | dice.roll(2) * 0x8000 | dice.roll(4096);
    if dice.roll(8) > 0 && word < 0x8000 {
        word & 0xFFFE
    } else {
        word
    }
}

/// A word of the input-output group with one or two of its six marks.
fn port_word(dice: &mut Dice) -> u16 {
    0xF000 | 0x40 << dice.roll(6) % 6 | 0x40 << dice.roll(6) % 6
}

/// A word that refers to one of the first 64 addresses, so that words are met again.
fn near_word(dice: &mut Dice) -> u16 {
    dice.roll(2) * 0x8000 | dice.roll(7) * 0x1000 | dice.roll(64)
}

/// A word for a memory: four kinds of memory take turns.
fn random_word(dice: &mut Dice, memory: u32) -> u16 {
    let any = dice.roll(65_536);
    match (memory % 4, dice.roll(4)) {
        (0, _) => any,
        (1, 0) => any,
        (1, _) => marked_word(dice),
        (2, 0) => marked_word(dice),
        (2, 1) => port_word(dice),
        (2, _) => near_word(dice),
        (_, 0) => near_word(dice),
        (_, 1) => marked_word(dice),
        (_, _) => port_word(dice),
    }
}

/// 4096 random words.
pub(crate) fn random_words(
    heap: Global,
    dice: &mut Dice,
    memory: u32,
) -> Result<Vec<u16>, AllocError> {
    (0..4096u32)
        .map(|_| random_word(dice, memory))
        .collect(heap)
}

/// A character with a random wait, seldom a long one.
fn random_cue(dice: &mut Dice) -> Cue {
    let wait = match dice.roll(8) {
        0 => dice.roll(1000),
        1 | 2 => dice.roll(50),
        _ => dice.roll(9),
    };
    Cue {
        wait,
        character: (dice.roll(256) % 256) as u8,
    }
}

/// Up to 100 characters with random waits, some of them long.
pub(crate) fn random_cues(heap: Global, dice: &mut Dice) -> Result<Vec<Cue>, AllocError> {
    (0..dice.roll(100)).map(|_| random_cue(dice)).collect(heap)
}
