//! What a session asks of a bench, beside the calls of its panel.
use crate::counts::Counts;
use clock_bench::ClockComputer;
use cycle_bench::CycleComputer;
use disassembly::disassemble;
use machine::{Computer, Registers, Visible};
use memory::{ImageMemory, Memory};
use rows::{ClockRow, CycleRow, clock_heading, clock_row, cycle_heading, cycle_row};
use std::alloc::{AllocError, Global};

/// A bench on which a session can be made. A step is a clock, or a whole cycle.
pub trait Bench: Computer + Drop {
    /// What is noted of a step before it is made.
    type Step: Copy + Default + Drop;

    /// A new computer.
    fn fresh() -> Self;

    /// The registers that a program can see.
    fn seen(&self) -> Visible;

    /// Whether S is up.
    fn runs(&self) -> bool;

    /// All registers, if it is clocked.
    fn all(&self) -> Option<Registers>;

    /// Notes the step that comes next in place of the last one.
    fn note(&self, memory: &ImageMemory, step: &mut Self::Step);

    /// Where the cycle of a step began.
    fn began(step: Self::Step) -> u16;

    /// The counts after one step more, which answered this.
    fn counted(counts: Counts, answer: u16) -> Counts;

    /// The heading of the rows.
    fn heading() -> &'static str;

    /// The row of a step that was just made.
    fn row(&self, heap: Global, step: Self::Step) -> Result<Vec<u8>, AllocError>;
}

/// A clock: its timing signal, where its cycle began, and whether that is an interrupt.
#[derive(Clone, Copy, Debug, Default)]
pub struct Clock {
    time: u8,
    began: u16,
    interrupt: bool,
}

impl Clock {
    /// The instruction that its row shows: the one in IR once it is fetched.
    fn instruction(self, ir: u16) -> [u8; 10] {
        match self.time {
            _ if self.interrupt => *b"interrupt ",
            0 => *b"fetch     ",
            _ => disassemble(ir),
        }
    }
}

impl Bench for ClockComputer {
    type Step = Clock;

    fn fresh() -> Self {
        ClockComputer::new()
    }

    fn seen(&self) -> Visible {
        self.visible()
    }

    fn runs(&self) -> bool {
        self.registers().s
    }

    fn all(&self) -> Option<Registers> {
        Some(self.registers())
    }

    fn note(&self, _: &ImageMemory, step: &mut Clock) {
        let Registers { sc, pc, r, .. } = self.registers();
        step.time = sc;
        if sc == 0 {
            step.began = pc;
            step.interrupt = r;
        }
    }

    fn began(step: Clock) -> u16 {
        step.began
    }

    fn counted(counts: Counts, answer: u16) -> Counts {
        counts.with_clock(answer)
    }

    fn heading() -> &'static str {
        clock_heading()
    }

    fn row(&self, heap: Global, step: Clock) -> Result<Vec<u8>, AllocError> {
        let after = self.registers();
        let row = ClockRow {
            time: step.time,
            instruction: step.instruction(after.ir),
            after,
        };
        clock_row(heap, row)
    }
}

/// A cycle: where its instruction stands, and the instruction, unless it is an interrupt.
#[derive(Clone, Copy, Debug, Default)]
pub struct Cycle {
    at: u16,
    word: Option<u16>,
}

impl Bench for CycleComputer {
    type Step = Cycle;

    fn fresh() -> Self {
        CycleComputer::new()
    }

    fn seen(&self) -> Visible {
        self.visible()
    }

    fn runs(&self) -> bool {
        self.visible().s
    }

    fn all(&self) -> Option<Registers> {
        None
    }

    fn note(&self, memory: &ImageMemory, step: &mut Cycle) {
        let Visible { pc, r, .. } = self.visible();
        step.at = pc;
        step.word = if r { None } else { Some(memory.fetch(pc)) };
    }

    fn began(step: Cycle) -> u16 {
        step.at
    }

    fn counted(counts: Counts, answer: u16) -> Counts {
        counts.with_cycle(answer)
    }

    fn heading() -> &'static str {
        cycle_heading()
    }

    fn row(&self, heap: Global, step: Cycle) -> Result<Vec<u8>, AllocError> {
        let row = CycleRow {
            at: step.at,
            word: step.word.unwrap_or(0),
            instruction: match step.word {
                Some(word) => disassemble(word),
                None => *b"interrupt ",
            },
            after: self.visible(),
        };
        cycle_row(heap, row)
    }
}
