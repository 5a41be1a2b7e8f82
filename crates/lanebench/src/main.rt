//! Lays a sheet and tries it on both benches at once.
#![tactic(auto)]

use std::env;

mod both;
mod options;
mod report;

use options::read_options;

const USAGE: &str = "usage: lanebench --both SHEET [--start ADDRESS] [--clocks N] [--input TEXT]

Lays SHEET in two zeroed memories, aims at ADDRESS (hexadecimal, 0 unless told), starts both benches and makes N
clocks (decimal, 1000 unless told) on the clock bench, and the cycles that these come to on the instruction bench.
The characters of TEXT arrive one after the other. It tells what came of it, and whether both benches agree.";

fn run(rt: &HostRuntime) -> anyhow::Result<()> {
    let words: Vec<String> = env::args(rt)?.skip(1).collect(rt.alloc())?;
    match read_options(words.as_slice()) {
        Ok(Some(options)) => match options.sheet {
            Some(sheet) => both::try_both(rt, sheet, options)?,
            None => rt.println(USAGE)?,
        },
        Ok(None) => rt.println(USAGE)?,
        Err(unknown) => {
            rt.println(unknown)?;
            rt.println(USAGE)?;
        }
    }
    Ok(())
}

fn main(rt: HostRuntime) -> anyhow::Result<()> {
    run(&rt)
}
