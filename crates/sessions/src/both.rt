//! Both benches side by side.
use crate::counts::{Counts, Stop, count_outcomes};
use crate::ending::Ending;
use crate::run::Run;
use crate::setup::Setup;
use crate::trouble::Trouble;
use cosimulation::{Cosimulation, Outcome, cosimulate};
use cycle_bench::CycleComputer;
use machine::Call;

/// The calls of a session: aim, start, and so many clocks.
// `lanebench` has the like until this program takes its place.
fn session_calls(rt: &HostRuntime, from: u16, clocks: u64) -> Result<Vec<Call>, Trouble<'static>> {
    let first = [Call::Aim(from), Call::Start].into_iter();
    let calls = first.chain((0..clocks).map(|_| Call::Clock));
    Ok(calls.collect(rt.alloc())?)
}

/// What the clocks behind the first two calls made.
fn count_clocks(outcomes: &[Outcome]) -> Counts {
    match outcomes {
        [_, _, clocks @ ..] => count_outcomes(clocks),
        _ => Counts::default(),
    }
}

/// Why the session ended: the computer halts only at the end of a cycle.
fn stop_of(pair: &Cosimulation, stop: Stop) -> Stop {
    if pair.computer.visible().s {
        Stop::Budget
    } else {
        stop
    }
}

/// Tells whether what can be compared is the same.
fn tell_agreement(
    rt: &HostRuntime,
    pair: &Cosimulation,
    same_memory_and_paper: bool,
) -> Result<(), Trouble<'static>> {
    if pair.inside {
        rt.println("the clock bench is inside a cycle, so the benches are not compared")?;
    } else if same_memory_and_paper && pair.computer.visible() == pair.twin.visible() {
        rt.println("both benches agree: registers, words and printed characters")?;
    } else {
        rt.println("THE BENCHES DIFFER")?;
    }
    Ok(())
}

/// How many clocks a session takes, which the instruction bench alone can tell, and why it ends.
fn clocks_of(rt: &HostRuntime, setup: &Setup) -> Result<(u64, Stop), Trouble<'static>> {
    let mut run: Run<CycleComputer> = Run::start(rt, setup)?;
    let stop = run.to_end(rt)?;
    Ok((run.counts.clocks.min(setup.limit.clocks), stop))
}

/// Makes the calls on the clock bench and their short list on the instruction bench, and tells whether they agree.
pub(crate) fn run_both(rt: &HostRuntime, setup: &Setup) -> Result<Ending, Trouble<'static>> {
    let (clocks, stop) = clocks_of(rt, setup)?;
    let calls = session_calls(rt, setup.from, clocks)?;
    let mut memory = setup.memory()?;
    let mut line = setup.line(rt)?;
    let mut twin_memory = setup.memory()?;
    let mut twin_line = setup.line(rt)?;
    let pair = cosimulate(
        rt.alloc(),
        calls.as_slice(),
        &mut memory,
        &mut line,
        &mut twin_memory,
        &mut twin_line,
    )?;
    let same = memory == twin_memory && line.printed() == twin_line.printed();
    tell_agreement(rt, &pair, same)?;
    Ok(Ending {
        visible: pair.computer.visible(),
        registers: Some(pair.computer.registers()),
        memory,
        line,
        counts: count_clocks(pair.outcomes.as_slice()),
        stop: stop_of(&pair, stop),
    })
}
