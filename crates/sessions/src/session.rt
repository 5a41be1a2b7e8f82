//! One session: set up, run, told and saved.
use crate::asked::Asked;
use crate::bench::Bench;
use crate::both::run_both;
use crate::counts::{Counts, Limit, Stop};
use crate::ending::Ending;
use crate::run::Run;
use crate::setup::{Setup, set_up};
use crate::trouble::Trouble;
use crate::usage::USAGE;
use clock_bench::ClockComputer;
use cycle_bench::CycleComputer;
use memory::ImageMemory;
use options::Options;
use std::fs;
use std::time::Instant;

/// Refuses options that do not go together.
fn check_together(options: Options) -> Result<(), Trouble<'static>> {
    if options.both && options.clock {
        Err(Trouble::Together("--both or --clock, and not both of them"))
    } else if options.both && options.trace {
        Err(Trouble::Together("--trace goes with one bench: leave --both out, or --trace"))
    } else if options.input.is_some() && options.script.is_some() {
        Err(Trouble::Together(
            "--input or --script, and not both: each has all characters that arrive",
        ))
    } else {
        Ok(())
    }
}

/// A session on one bench.
// `trace` is an option of the command line, and chooses once between two methods.
fn run_on<B: Bench>(
    rt: &HostRuntime,
    setup: &Setup,
    trace: bool,
) -> Result<Ending, Trouble<'static>> {
    let mut run: Run<B> = Run::start(rt, setup)?;
    let stop = if trace {
        run.trace(rt)?
    } else {
        run.to_end(rt)?
    };
    Ok(run.end(stop))
}

/// Tells how fast a session went.
fn tell_time(rt: &HostRuntime, counts: Counts, started: Instant) -> Result<(), Trouble<'static>> {
    let nanoseconds = started.elapsed(rt)?.as_nanos().max(1);
    let cycles = u128::from(counts.cycles).saturating_mul(1000) / nanoseconds;
    let clocks = u128::from(counts.clocks).saturating_mul(1000) / nanoseconds;
    let milliseconds = nanoseconds / 1_000_000;
    eprintln!(rt;
        "{milliseconds} ms: {cycles} million cycles a second, {clocks} million clocks a second"
    )?;
    Ok(())
}

/// Says that the limit ended the session, apart from what it prints.
fn tell_budget(rt: &HostRuntime, limit: Limit) -> Result<(), Trouble<'static>> {
    if limit.clocks < u64::MAX {
        eprintln!(rt; "it did not halt: --clocks N or --cycles N lets it run longer")?;
    } else {
        let cycles = limit.cycles;
        eprintln!(rt; "it did not halt in {cycles} cycles: --cycles N lets it run longer")?;
    }
    Ok(())
}

/// Writes the memory to a file: whole or not at all.
fn save<'a>(rt: &HostRuntime, name: &'a str, memory: ImageMemory) -> Result<(), Trouble<'a>> {
    let part = format!(in rt.alloc(); "{name}.part")?;
    let bytes = memory.into_bytes();
    fs::write(rt, part.as_str(), bytes.as_slice()).map_err(|_| Trouble::Unwritable(name))?;
    if fs::rename(rt, part.as_str(), name).is_err() {
        let _ = fs::remove_file(rt, part.as_str());
        return Err(Trouble::Unwritable(name));
    }
    Ok(())
}

/// Runs on the bench that the options ask for.
fn run(rt: &HostRuntime, setup: &Setup, options: Options) -> Result<Ending, Trouble<'static>> {
    if options.both {
        run_both(rt, setup)
    } else if options.clock {
        run_on::<ClockComputer>(rt, setup, options.trace)
    } else {
        run_on::<CycleComputer>(rt, setup, options.trace)
    }
}

/// Tries what is asked for, and tells what came of it.
pub(crate) fn try_session<'a>(rt: &HostRuntime, asked: Asked<'a>) -> Result<(), Trouble<'a>> {
    let options = asked.options;
    if options.help {
        rt.println(USAGE)?;
        return Ok(());
    }
    check_together(options)?;
    let setup = set_up(rt, asked)?;
    let started = Instant::now(rt)?;
    let ending = run(rt, &setup, options)?;
    if options.time {
        tell_time(rt, ending.counts, started)?;
    }
    if let Some((first, last)) = options.examine {
        ending.tell_words(rt, first, last)?;
    }
    ending.tell(rt)?;
    if let Stop::Budget = ending.stop {
        tell_budget(rt, setup.limit)?;
    }
    if let Some(name) = asked.word(options.save) {
        save(rt, name, ending.memory)?;
    }
    Ok(())
}
