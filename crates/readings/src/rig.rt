//! Both benches, and the second simulator by clocks and by cycles, side by side.
pub(crate) mod board;
pub(crate) mod compare;
pub(crate) mod difference;
mod outcome;

use crate::rig::board::Board;
use crate::second;
use crate::second::{Key, Second, Teletype};
use clock_bench::ClockComputer;
use cycle_bench::CycleComputer;
pub(crate) use difference::{Bench, Difference};
use line::{Cue, ScriptLine};
use machine::Call;
use memory::{ImageMemory, WordMemory};
pub(crate) use outcome::{Outcome, Refused};
use std::alloc::{AllocError, Global};

/// Four boards that start with the same words and the same characters to come. The clock bench works on words and the
/// instruction bench on an image.
#[derive(Drop)]
pub(crate) struct Rig {
    pub clock: Board<ClockComputer, WordMemory>,
    pub instruction: Board<CycleComputer, ImageMemory>,
    pub by_clocks: Second,
    pub by_cycles: Second,
    inside: bool,
}

/// The words as bytes, the high byte first.
fn image(heap: Global, words: &[u16]) -> Result<Vec<u8>, AllocError> {
    // a `for`: collected from a chain the bytes take some six times as long
    let mut bytes = Vec::new(heap);
    for word in words {
        bytes.extend_from_slice(&word.to_be_bytes())?;
    }
    Ok(bytes)
}

/// A script line with these cues and a blank paper.
fn script_line(heap: Global, cues: &[Cue], paper: usize) -> Result<ScriptLine, AllocError> {
    Ok(ScriptLine::new(cues.to_vec(heap)?, vec![in heap; 0; paper]?))
}

/// A second board with these words, keys and paper.
fn second_board(
    heap: Global,
    words: &[u16],
    cues: &[Cue],
    paper: usize,
) -> Result<Second, AllocError> {
    let keys = cues
        .iter()
        .map(|cue| Key {
            after: u32::from(cue.wait),
            code: cue.character,
        })
        .collect(heap)?;
    let teletype = Teletype::new(heap, keys, paper)?;
    Ok(Second::new(words.to_vec(heap)?, teletype))
}

/// A call on a second board, which makes one step where the call is a clock.
fn ask<F: FnOnce(&mut Second) -> Result<u32, second::Refusal>>(
    board: &mut Second,
    call: Call,
    step: F,
) -> Outcome
    requires { F.IsAlwaysCallable step }
{
    match call {
        Call::Clock => return Ok(step(board)?),
        Call::Examine(address) => return Ok(board.examine(u32::from(address))?),
        Call::Start => board.start()?,
        Call::Aim(address) => board.aim(u32::from(address))?,
        Call::Deposit(address, word) => board.deposit(u32::from(address), u32::from(word))?,
    }
    Ok(0)
}

impl Rig {
    /// New computers over these words, with these characters to come and room for so many to be printed.
    pub(crate) fn new(
        heap: Global,
        words: &[u16],
        cues: &[Cue],
        paper: usize,
    ) -> Result<Rig, AllocError> {
        Ok(Rig {
            clock: Board {
                computer: ClockComputer::new(),
                memory: WordMemory::new(words.to_vec(heap)?),
                line: script_line(heap, cues, paper)?,
            },
            instruction: Board {
                computer: CycleComputer::new(),
                memory: ImageMemory::new(image(heap, words)?),
                line: script_line(heap, cues, paper)?,
            },
            by_clocks: second_board(heap, words, cues, paper)?,
            by_cycles: second_board(heap, words, cues, paper)?,
            inside: false,
        })
    }

    /// A call on the second simulator, by clocks.
    pub(crate) fn on_second(&mut self, call: Call) -> Outcome {
        ask(&mut self.by_clocks, call, |board| board.clock())
    }

    /// A call on the boards that are clocked, and on those that make whole cycles unless it is a clock that ended no cycle or
    /// an examine made inside one. Everything is compared.
    // The rule stands here again, apart from the co-simulation's: what tests the definitions shares none of them.
    pub(crate) fn call(&mut self, call: Call) -> Result<Outcome, Difference> {
        let ours = self.clock.call(call);
        let second = self.on_second(call);
        Bench::Clock.check_outcome(ours, second)?;
        self.compare_clocked()?;
        let struck = match call {
            Call::Clock => ours == Ok(0),
            Call::Examine(_) => self.inside,
            _ => false,
        };
        if !struck {
            let twin = self.instruction.call(call);
            Bench::Instruction.check_outcome(twin, ours)?;
            let second = ask(&mut self.by_cycles, call, |board| board.cycle());
            Bench::Instruction.check_outcome(twin, second)?;
        }
        if let (Call::Clock, Ok(clocks)) = (call, ours) {
            self.inside = clocks == 0;
        }
        if !self.inside {
            self.compare_whole()?;
        }
        Ok(ours)
    }
}
