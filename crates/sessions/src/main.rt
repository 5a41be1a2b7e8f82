//! Tries a sheet on a bench: by whole instructions, clock by clock, or on both benches at once.
#![tactic(auto)]

mod asked;
mod bench;
mod both;
mod counts;
mod ending;
mod progress;
mod run;
mod say;
mod script;
mod session;
mod setup;
mod trouble;
mod usage;

use asked::Asked;
use options::read_options;
use session::try_session;
use std::{env, io};
use trouble::Trouble;
use usage::USAGE;

/// Does what the words ask for.
fn try_words<'a>(rt: &HostRuntime, words: &'a [String]) -> Result<(), Trouble<'a>> {
    match read_options(words) {
        Ok(options) => try_session(rt, Asked { words, options }),
        Err(fault) => Err(Trouble::of_words(words, fault)),
    }
}

fn main(rt: HostRuntime) -> io::Result<()> {
    let words: Vec<String> = env::args(&rt)?.skip(1).collect(rt.alloc())?;
    if words.is_empty() {
        return rt.println(USAGE);
    }
    match try_words(&rt, words.as_slice()) {
        Ok(()) | Err(Trouble::Silent(_)) => Ok(()),
        Err(trouble) => println!(rt; "sessions: {trouble}"),
    }
}
