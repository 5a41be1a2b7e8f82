//! Both benches at once.
use crate::options::Options;
use crate::report::Tally;
use cosimulation::{Cosimulation, cosimulate};
use line::{Cue, ScriptLine};
use machine::Call;
use memory::WordMemory;
use sheets::LayingFault;
use sheets::assembly::assemble;
use std::fs;
use std::iter::repeat_n;

/// How many characters may be printed.
const PAPER: usize = 4096;

/// A line on which these characters arrive, each as soon as it can.
fn script(rt: &HostRuntime, input: &str) -> anyhow::Result<ScriptLine> {
    let cues = input.bytes().map(|character| Cue { wait: 0, character });
    Ok(ScriptLine::new(cues.collect(rt.alloc())?, vec![in rt.alloc(); 0; PAPER]?))
}

/// The calls of a session: aim, start, and then clocks.
// `sessions`, which is to take this program's place, has the like: three lines, and no crate below both is plainer.
fn session(rt: &HostRuntime, options: Options) -> anyhow::Result<Vec<Call>> {
    let calls = [Call::Aim(options.start), Call::Start]
        .into_iter()
        .chain(repeat_n(Call::Clock, usize::from(options.clocks)));
    Ok(calls.collect(rt.alloc())?)
}

/// Lays the sheet, and says so; false where it is refused.
fn lay(rt: &HostRuntime, name: &str, text: &[u8], memory: &mut WordMemory) -> anyhow::Result<bool> {
    match assemble(rt.alloc(), 512, text, memory)? {
        Ok((count, lowest, highest)) => {
            println!(rt; "{name}: {count} words from {lowest:03X} to {highest:03X}")?;
            Ok(true)
        }
        Err(LayingFault::Sheet(fault)) => {
            let report = fault.report();
            println!(rt; "{name}: refused with {report}")?;
            Ok(false)
        }
        Err(LayingFault::MemorySize) => Ok(false),
    }
}

/// Tells the printed characters.
fn tell_paper(rt: &HostRuntime, line: &ScriptLine) -> anyhow::Result<()> {
    let text = String::from_utf8_lossy(rt.alloc(), line.printed())?;
    println!(rt; "printed: {text}")?;
    Ok(())
}

/// Tells whether what can be compared is the same.
fn tell_agreement(
    rt: &HostRuntime,
    pair: &Cosimulation,
    words: bool,
    papers: bool,
) -> anyhow::Result<()> {
    if pair.inside {
        rt.println("the clock bench is inside a cycle, so the registers are not compared")?;
    } else if pair.computer.visible() == pair.twin.visible() && words && papers {
        rt.println("both benches agree: registers, words and printed characters")?;
    } else {
        rt.println("THE BENCHES DIFFER")?;
    }
    Ok(())
}

/// Lays the sheet in two memories, makes the calls on both benches, and tells what came of it.
pub(crate) fn try_both(rt: &HostRuntime, sheet: &str, options: Options) -> anyhow::Result<()> {
    let text = match fs::read(rt, sheet) {
        Ok(text) => text,
        Err(_) => {
            println!(rt; "{sheet}: cannot be read")?;
            return Ok(());
        }
    };
    let mut memory = WordMemory::new(vec![in rt.alloc(); 0; 4096]?);
    if !lay(rt, sheet, text.as_slice(), &mut memory)? {
        return Ok(());
    }
    let mut twin_memory = WordMemory::new(vec![in rt.alloc(); 0; 4096]?);
    let _ = assemble(rt.alloc(), 512, text.as_slice(), &mut twin_memory)?;
    let mut line = script(rt, options.input)?;
    let mut twin_line = script(rt, options.input)?;
    let calls = session(rt, options)?;
    let pair = cosimulate(
        rt.alloc(),
        calls.as_slice(),
        &mut memory,
        &mut line,
        &mut twin_memory,
        &mut twin_line,
    )?;
    let all = Tally::of(calls.as_slice(), pair.outcomes.as_slice());
    println!(rt; "clock bench: {all}")?;
    println!(rt;
        "instruction bench: {} calls of the short list",
        pair.twin_outcomes.len()
    )?;
    tell_paper(rt, &line)?;
    tell_agreement(
        rt,
        &pair,
        memory == twin_memory,
        line.printed() == twin_line.printed(),
    )
}
