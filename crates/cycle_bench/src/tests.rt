//! Cycles, runs and refusals that were worked out by hand.
use crate::CycleComputer;
use line::{Cue, QuietLine, ScriptLine};
use machine::{Computer, Refusal};
use memory::{Memory, WordMemory};
use std::alloc::{AllocError, Global};
use std::test::Fail;

/// A memory of 4096 words that begins with these three.
fn loaded(first: u16, second: u16, third: u16, heap: Global) -> Result<WordMemory, AllocError> {
    let mut memory = WordMemory::new(vec![in heap; 0u16; 4096]?);
    memory.store(0, first);
    memory.store(1, second);
    memory.store(2, third);
    Ok(memory)
}

/// What a call answers, or the number of its refusal.
fn told<T: Drop>(returned: Result<T, Refusal>) -> Result<T, u8> {
    returned.map_err(|refusal| refusal.number())
}

#[test]
fn lda_takes_six_clocks(rt: HostRuntime) -> Result<(), Fail> {
    let mut memory = loaded(0x2010, 0, 0, rt.alloc())?;
    let mut line = QuietLine;
    let mut computer = CycleComputer::new();
    assert_eq!(rt; computer.deposit(&mut memory, 0x010, 0xBEEF), Ok(0));
    assert_eq!(rt; computer.examine(&memory, 0x010), Ok(0xBEEF));
    assert_eq!(rt; computer.start(), Ok(0));
    assert_eq!(rt; computer.cycle(&mut memory, &mut line), Ok(6));
    assert_eq!(rt; computer.visible().ac, 0xBEEF);
    assert_eq!(rt; computer.visible().pc, 1);
    Ok(())
}

#[test]
fn a_run_ends_at_hlt(rt: HostRuntime) -> Result<(), Fail> {
    // CLA, INC, HLT
    let mut memory = loaded(0x7800, 0x7020, 0x7001, rt.alloc())?;
    let mut computer = CycleComputer::new();
    assert_eq!(rt; told(computer.run(&mut memory, &mut QuietLine, 3)), Err(3));
    assert_eq!(rt; computer.start(), Ok(0));
    assert_eq!(rt; computer.run(&mut memory, &mut QuietLine, 9), Ok((3, 12)));
    assert_eq!(rt; computer.visible().ac, 1);
    assert!(rt; !computer.visible().s);
    Ok(())
}

#[test]
fn an_interrupt_saves_pc(rt: HostRuntime) -> Result<(), Fail> {
    // ION, CLA
    let mut memory = loaded(0xF080, 0x7800, 0, rt.alloc())?;
    let mut line = QuietLine;
    let mut computer = CycleComputer::new();
    assert_eq!(rt; computer.start(), Ok(0));
    assert_eq!(rt; computer.run(&mut memory, &mut line, 2), Ok((2, 8)));
    assert!(rt; computer.visible().r);
    assert_eq!(rt; computer.cycle(&mut memory, &mut line), Ok(3));
    assert_eq!(rt; computer.examine(&memory, 0), Ok(2));
    assert_eq!(rt; computer.visible().pc, 1);
    assert!(rt; !computer.visible().r);
    assert!(rt; !computer.visible().ien);
    Ok(())
}

#[test]
fn inp_takes_the_character(rt: HostRuntime) -> Result<(), Fail> {
    let mut memory = loaded(0xF800, 0, 0, rt.alloc())?;
    let cue = Cue {
        wait: 0,
        character: b'A',
    };
    let mut line = ScriptLine::new([cue].to_vec(rt.alloc())?, Vec::new(rt.alloc()));
    let mut computer = CycleComputer::new();
    assert_eq!(rt; computer.start(), Ok(0));
    assert_eq!(rt; computer.cycle(&mut memory, &mut line), Ok(4));
    assert_eq!(rt; computer.visible().ac, 0x0041);
    assert!(rt; !computer.visible().port.fgi);
    Ok(())
}

#[test]
fn refusals_go_by_the_first_cause(rt: HostRuntime) -> Result<(), Fail> {
    let mut small = WordMemory::new([0, 0].to_vec(rt.alloc())?);
    let mut computer = CycleComputer::new();
    assert_eq!(rt; told(computer.aim(0x1000)), Err(2));
    assert_eq!(rt; told(computer.cycle(&mut small, &mut QuietLine)), Err(1));
    assert_eq!(rt; told(computer.deposit(&mut small, 0x1000, 1)), Err(1));
    assert_eq!(rt; computer.start(), Ok(0));
    assert_eq!(rt; told(computer.aim(0)), Err(4));
    Ok(())
}
