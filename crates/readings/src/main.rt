//! Holds both benches against readings from the board and against a second simulator.
#![tactic(auto)]

mod panel;
mod random;
mod rig;
mod second;
mod tally;
mod trial;

ghost use Rattle.std.specs.Prelude.{◌≤◌, length};

use panel::try_panel;
use random::{try_marks, try_random};
use std::{env, fs, slice};
use tally::Tally;
use trial::try_file;

const USAGE: &str = "usage: readings [--panel] [--seed N] [--marks] [--random CYCLES] [FILE..]

Holds both benches against a second simulator, in the order of the words:
  --panel          the readings of the panel
  FILE             each sheet of the file, run with what it says in its // comments and held to what it expects there
  --seed N         the seed of the random words that follow, 1 unless told
  --marks          every word of opcode 7, on random words in AC
  --random CYCLES  that many cycles of random words, a thousand on each memory";

/// Tries the sheets of a file, if it can be read.
fn try_named(rt: &HostRuntime, name: &str, tally: &mut Tally) -> anyhow::Result<()> {
    match fs::read_to_string(rt, name) {
        Ok(text) => try_file(rt, name, text.as_str(), tally),
        Err(_) => {
            print!(rt; "{name}: cannot be read as text")?;
            tally.end_row(rt, false)?;
            Ok(())
        }
    }
}

/// The word that comes next, as a number.
fn number(words: &mut slice::Iter<String>) -> Option<u32>
    ensures { length words.new.rest.now ≤ length words.old.rest.now }
{
    words.next()?.parse::<u32>().ok()
}

/// Does what the words ask for, one after the other, and answers whether all were understood.
fn try_words(rt: &HostRuntime, words: &[String], tally: &mut Tally) -> anyhow::Result<bool> {
    let mut seed = 1;
    let mut words = words.iter();
    while let Some(word) = words.next() {
        match word.as_str() {
            "--panel" => try_panel(rt, tally)?,
            "--marks" => try_marks(rt, seed)?,
            "--seed" | "--random" => {
                let Some(value) = number(&mut words) else {
                    println!(rt; "readings: {word} wants a number behind it")?;
                    return Ok(false);
                };
                if word.as_str() == "--seed" {
                    seed = value;
                } else {
                    try_random(rt, seed, value)?;
                }
            }
            name => try_named(rt, name, tally)?,
        }
    }
    Ok(true)
}

fn run(rt: &HostRuntime) -> anyhow::Result<()> {
    let words: Vec<String> = env::args(rt)?.skip(1).collect(rt.alloc())?;
    if words.is_empty() {
        rt.println(USAGE)?;
        return Ok(());
    }
    let mut tally = Tally::default();
    if try_words(rt, words.as_slice(), &mut tally)? {
        println!(rt; "{tally}")?;
    }
    Ok(())
}

fn main(rt: HostRuntime) -> anyhow::Result<()> {
    run(&rt)
}
