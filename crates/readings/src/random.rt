//! Random words in random memories, with calls from the panel in between.
mod coverage;
mod dice;
mod marks;
mod words;

use crate::random::coverage::Coverage;
use crate::random::dice::Dice;
use crate::random::words::{random_cues, random_words};
use crate::rig::{Difference, Rig};
use machine::Call;
pub(crate) use marks::try_marks;
use std::alloc::{AllocError, Global};

/// The cycles made on one memory before the next one is drawn.
const CYCLES_OF_A_MEMORY: u32 = 1000;

/// The next call: mostly clocks while the computer runs, mostly the panel while it does not.
fn random_call(dice: &mut Dice, running: bool) -> Call {
    let address = dice.roll(4100);
    match dice.roll(48) {
        0 => Call::Start,
        1 => Call::Aim(address),
        2 | 3 => Call::Deposit(address, dice.roll(65_536)),
        4 | 5 => Call::Examine(address),
        _ if running => Call::Clock,
        6..=20 => Call::Aim(address),
        21..=25 => Call::Clock,
        26..=30 => Call::Deposit(address, dice.roll(65_536)),
        _ => Call::Start,
    }
}

/// The dice that draw words and calls, and what these have tried so far.
#[derive(Drop)]
struct Experiment {
    dice: Dice,
    coverage: Coverage,
}

impl Experiment {
    /// With that seed; nothing is tried yet.
    fn new(heap: Global, seed: u32) -> Result<Experiment, AllocError> {
        Ok(Experiment {
            dice: Dice::new(seed),
            coverage: Coverage::new(heap)?,
        })
    }

    /// One call on a rig, counted. Answers whether it ended a cycle.
    fn make(&mut self, rig: &mut Rig, call: Call) -> Result<bool, Difference> {
        let outcome = rig.call(call)?;
        self.coverage.count_call(call, outcome);
        let ir = rig.clock.computer.registers().ir;
        Ok(self.coverage.count_cycle(call, outcome, ir))
    }

    /// Random calls on one rig, until so many cycles are made.
    fn try_calls(&mut self, rig: &mut Rig, cycles: u32) -> Result<(), Difference> {
        // counts cycles that ended, not turns
        let mut made = 0;
        for _ in 0..100 * u64::from(cycles) {
            if made >= cycles {
                break;
            }
            let call = random_call(&mut self.dice, rig.clock.computer.registers().s);
            if self.make(rig, call)? {
                made += 1;
            }
        }
        Ok(())
    }

    /// Random calls on a rig over random words. The kinds of memory take turns.
    fn try_memory(
        &mut self,
        heap: Global,
        memory: u32,
    ) -> Result<Result<(), Difference>, AllocError> {
        self.coverage.begin_memory();
        let words = random_words(heap, &mut self.dice, memory)?;
        let cues = random_cues(heap, &mut self.dice)?;
        let paper = usize::from(self.dice.roll(400));
        let mut rig = Rig::new(heap, words.as_slice(), cues.as_slice(), paper)?;
        let tried = self.try_calls(&mut rig, CYCLES_OF_A_MEMORY);
        self.coverage.count_line(&rig.clock.line, cues.len());
        Ok(tried)
    }

    /// Tells a difference and the memory in which it was met, or that there was none, and how much was tried.
    fn tell(&self, rt: &HostRuntime, tried: Result<(), (u32, Difference)>) -> anyhow::Result<()> {
        let coverage = &self.coverage;
        let calls = coverage.calls;
        match tried {
            Ok(()) => rt.println("  no difference")?,
            Err((memory, difference)) => println!(rt;
                "  DIFFERENCE in memory {memory}, after {calls} calls: {difference}"
            )?,
        }
        println!(rt; "{coverage}")?;
        Ok(())
    }
}

/// Tries that many cycles of random words, up to the first difference if there is one.
fn try_memories(
    heap: Global,
    experiment: &mut Experiment,
    cycles: u32,
) -> Result<Result<(), (u32, Difference)>, AllocError> {
    for memory in 0..cycles / CYCLES_OF_A_MEMORY {
        if let Err(difference) = experiment.try_memory(heap, memory)? {
            return Ok(Err((memory, difference)));
        }
    }
    Ok(Ok(()))
}

/// Tries that many cycles of random words and tells how much was tried, and the first difference if there is one.
pub(crate) fn try_random(rt: &HostRuntime, seed: u32, cycles: u32) -> anyhow::Result<()> {
    println!(rt; "random words, seed {seed}:")?;
    let mut experiment = Experiment::new(rt.alloc(), seed)?;
    let tried = try_memories(rt.alloc(), &mut experiment, cycles)?;
    experiment.tell(rt, tried)
}
