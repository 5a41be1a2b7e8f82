//! Trials: sheets that say in comments of their own how they are run and what they must leave.
mod expected;
mod settings;

use crate::rig::{Difference, Refused, Rig};
use crate::tally::Tally;
use crate::trial::expected::{Expected, expectation};
use crate::trial::settings::{Settings, read_settings};
use line::Cue;
use machine::Call;
use memory::WordMemory;
use sheets::assembly::assemble;
use std::alloc::{AllocError, Global};

/// How many characters a trial may print.
const PAPER: usize = 4096;

/// Aims, starts, and makes cycles until the computer halts or so many are made.
fn run(rig: &mut Rig, from: u16, cycles: u32) -> Result<(), Difference> {
    let _ = rig.call(Call::Aim(from))?;
    let _ = rig.call(Call::Start)?;
    // counts cycles that ended, not turns
    let mut made = 0;
    for _ in 0..7 * u64::from(cycles) {
        if made >= cycles || !rig.clock.computer.registers().s {
            break;
        }
        if rig.call(Call::Clock)? != Ok(0) {
            made += 1;
        }
    }
    Ok(())
}

/// The characters of a trial, each after the same wait.
fn cues(heap: Global, settings: Settings) -> Result<Vec<Cue>, AllocError> {
    let wait = settings.wait;
    settings
        .input
        .bytes()
        .map(|character| Cue { wait, character })
        .collect(heap)
}

/// Tells what is expected.
fn tell_expected(rt: &HostRuntime, text: &str) -> anyhow::Result<()> {
    print!(rt; "; expected")?;
    for expectation in text.lines().filter_map(expectation) {
        if let Ok(expected) = expectation {
            print!(rt; " {expected}")?;
        }
    }
    Ok(())
}

/// Tells what is read where something is expected, and answers whether it is all the same and something at all.
fn tell_read(rt: &HostRuntime, text: &str, rig: &Rig) -> anyhow::Result<bool> {
    let mut same = text.lines().any(|line| expectation(line).is_some());
    print!(rt; ": read")?;
    for expectation in text.lines().filter_map(expectation) {
        match expectation {
            Ok(expected) => same &= expected.show_read(rt, rig)?,
            Err(rest) => {
                print!(rt; " (not understood: {rest})")?;
                same = false;
            }
        }
    }
    Ok(same)
}

/// Whether refusals are all that is expected, and this one last.
fn is_expected(text: &str, refused: Refused) -> bool {
    let mut same = false;
    for expectation in text.lines().filter_map(expectation) {
        let Ok(Expected::Refused(expected)) = expectation else {
            return false;
        };
        same = expected == refused;
    }
    same
}

/// Runs words that were laid, and tells what was read.
fn tell_run(
    rt: &HostRuntime,
    text: &str,
    words: Vec<u16>,
    from: u16,
    settings: Settings,
) -> anyhow::Result<bool> {
    let cues = cues(rt.alloc(), settings)?;
    let mut rig = Rig::new(rt.alloc(), words.as_slice(), cues.as_slice(), PAPER)?;
    let ran = run(&mut rig, from, settings.cycles);
    let same = tell_read(rt, text, &rig)?;
    match ran {
        Ok(()) => Ok(same),
        Err(difference) => {
            print!(rt; " ({difference})")?;
            Ok(false)
        }
    }
}

/// Lays a sheet, runs it on both benches and the second simulator, and tells what was read and what was expected.
pub(crate) fn try_sheet(
    rt: &HostRuntime,
    title: &str,
    text: &str,
    tally: &mut Tally,
) -> anyhow::Result<()> {
    print!(rt; "{title}")?;
    let settings = match read_settings(text) {
        Ok(settings) => settings,
        Err(line) => {
            print!(rt; ": not understood: {line}")?;
            tally.end_row(rt, false)?;
            return Ok(());
        }
    };
    let mut memory = WordMemory::new(vec![in rt.alloc(); 0; 4096]?);
    let same = match assemble(rt.alloc(), 512, text.as_bytes(), &mut memory)? {
        Err(fault) => {
            let refused = Refused::from(fault);
            print!(rt; ": read {refused}")?;
            is_expected(text, refused)
        }
        Ok((_, lowest, _)) => {
            let from = settings.from.unwrap_or(lowest);
            tell_run(rt, text, memory.into_words(), from, settings)?
        }
    };
    tell_expected(rt, text)?;
    tally.end_row(rt, same)?;
    Ok(())
}

/// Tries each sheet of a file: a line that begins with `= ` is the title of the sheet below it. A file without such a line
/// is one sheet, and the file's name is its title.
pub(crate) fn try_file(
    rt: &HostRuntime,
    name: &str,
    text: &str,
    tally: &mut Tally,
) -> anyhow::Result<()> {
    let mut title = name;
    let mut sheet = String::new(rt.alloc());
    for line in text.lines() {
        if let Some(next) = line.strip_prefix("= ") {
            if !sheet.is_empty() {
                try_sheet(rt, title, sheet.as_str(), tally)?;
            }
            title = next;
            sheet.clear();
        } else {
            sheet.push_str(line)?;
            sheet.push('\n')?;
        }
    }
    if !sheet.is_empty() {
        try_sheet(rt, title, sheet.as_str(), tally)?;
    }
    Ok(())
}
