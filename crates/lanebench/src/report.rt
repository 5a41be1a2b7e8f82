//! What came of a co-simulation, counted.
use cosimulation::Outcome;
use machine::Call;
use std::fmt;

/// How many calls, granted clocks, cycles and refusals there were.
#[derive(Clone, Copy, Debug, Default)]
pub(crate) struct Tally {
    calls: usize,
    clocks: usize,
    cycles: usize,
    refusals: usize,
}

impl Tally {
    /// One call more, by what it returned.
    fn with(self, call: Call, outcome: Outcome) -> Tally {
        let mut more = self;
        more.calls = more.calls.saturating_add(1);
        match (call, outcome) {
            (_, Err(_)) => more.refusals = more.refusals.saturating_add(1),
            (Call::Clock, Ok(clocks)) => {
                more.clocks = more.clocks.saturating_add(1);
                more.cycles = more.cycles.saturating_add(usize::from(clocks > 0));
            }
            _ => {}
        }
        more
    }

    /// Counts the calls by what they returned.
    pub(crate) fn of(calls: &[Call], outcomes: &[Outcome]) -> Tally {
        calls.iter().zip(outcomes.iter()).fold(
            Tally::default(),
            |tally, (call, outcome)| tally.with(*call, *outcome),
        )
    }
}

impl fmt::Display for Tally {
    fn fmt<W: fmt::Write>(&self, f: &mut fmt::Formatter<W>) -> fmt::Result {
        let Tally {
            calls,
            clocks,
            cycles,
            refusals,
        } = *self;
        write!(
            f,
            "{calls} calls, {clocks} clocks granted, {cycles} cycles, {refusals} refusals"
        )
    }
}
