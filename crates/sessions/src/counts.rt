//! How much was made, and how much may be.
ghost use Rattle.std.specs.Prelude.{◌≡◌};
ghost use Rattle.sessions.specs.Counting.{nothing, interrupt, cycle_counted, clock_counted, outcome_counted, outcomes_counted, reached};

use cosimulation::Outcome;
use options::Options;
use std::fmt;

/// Cycles unless told.
const CYCLES: u64 = 100_000;

/// What a run made so far.
#[derive(Clone, Copy, Debug, Default)]
pub struct Counts {
    pub cycles: u64,
    pub clocks: u64,
    pub interrupts: u64,
}

/// What a run may make at most.
#[derive(Clone, Copy, Debug)]
pub struct Limit {
    pub cycles: u64,
    pub clocks: u64,
}

/// Why a run ended.
#[derive(Clone, Copy, Debug)]
pub enum Stop {
    /// By the HLT at this address.
    Halted(u16),
    /// By the limit.
    Budget,
}

impl fmt::Display for Counts {
    fn fmt<W: fmt::Write>(&self, f: &mut fmt::Formatter<W>) -> fmt::Result {
        let Counts {
            cycles,
            clocks,
            interrupts,
        } = *self;
        write!(
            f,
            "cycles {cycles}\nclocks {clocks}\ninterrupts {interrupts}"
        )
    }
}

impl fmt::Display for Stop {
    fn fmt<W: fmt::Write>(&self, f: &mut fmt::Formatter<W>) -> fmt::Result {
        match *self {
            Stop::Halted(address) => write!(f, "HLT {address:03X}"),
            Stop::Budget => f.write_str("budget"),
        }
    }
}

/// 1 for an interrupt cycle, which is the one of three clocks.
fn interrupt(clocks: u16) -> u64
    ensures { result ≡ interrupt clocks }
{
    if clocks == 3 { 1 } else { 0 }
}

impl Counts {
    /// One cycle more, of so many clocks.
    pub(crate) fn with_cycle(self, clocks: u16) -> Counts
        ensures { result ≡ cycle_counted clocks self }
    {
        Counts {
            cycles: self.cycles.saturating_add(1),
            clocks: self.clocks.saturating_add(u64::from(clocks)),
            interrupts: self.interrupts.saturating_add(interrupt(clocks)),
        }
    }

    /// One clock more, which ended a cycle of so many clocks, or none.
    pub(crate) fn with_clock(self, ended: u16) -> Counts
        ensures { result ≡ clock_counted ended self }
    {
        let cycles = if ended > 0 { 1 } else { 0 };
        Counts {
            cycles: self.cycles.saturating_add(cycles),
            clocks: self.clocks.saturating_add(1),
            interrupts: self.interrupts.saturating_add(interrupt(ended)),
        }
    }

    /// A clock by what it returned.
    fn with_outcome(self, outcome: Outcome) -> Counts
        ensures { result ≡ outcome_counted outcome self }
    {
        match outcome {
            Ok(ended) => self.with_clock(ended),
            Err(_) => self,
        }
    }

    /// Whether a limit is reached.
    pub(crate) fn reach(self, limit: Limit) -> bool
        ensures { result ≡ reached limit self }
    {
        self.cycles >= limit.cycles || self.clocks >= limit.clocks
    }
}

/// Counts the clocks that returned this.
pub(crate) fn count_outcomes(outcomes: &[Outcome]) -> Counts
    ensures { result ≡ outcomes_counted nothing outcomes.now }
{
    // a `for`: with a fold the proof did not close
    let mut counts = Counts::default();
    for outcome in outcomes {
        counts = counts.with_outcome(*outcome);
    }
    counts
}

impl Limit {
    /// What the options allow.
    pub(crate) fn of(options: Options) -> Limit {
        match (options.cycles, options.clocks) {
            (None, None) => Limit {
                cycles: CYCLES,
                clocks: u64::MAX,
            },
            (cycles, clocks) => Limit {
                cycles: cycles.unwrap_or(u64::MAX),
                clocks: clocks.unwrap_or(u64::MAX),
            },
        }
    }
}
