//! What comes of a co-simulation.
use clock_bench::ClockComputer;
use cycle_bench::CycleComputer;
use machine::Refusal;

/// What a call returned: its answer, or why it was turned down.
pub type Outcome = Result<u16, Refusal>;

/// Both computers after a list of calls, and what each returned.
#[derive(Drop)]
pub struct Cosimulation {
    pub computer: ClockComputer,
    pub twin: CycleComputer,
    /// Whether the first computer is inside a cycle.
    pub inside: bool,
    pub outcomes: Vec<Outcome>,
    pub twin_outcomes: Vec<Outcome>,
}
