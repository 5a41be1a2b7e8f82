//! Examples, worked out by hand.
use crate::ClockComputer;
use line::QuietLine;
use machine::{Computer, Refusal};
use memory::{Memory, WordMemory};
use std::alloc::Global;
use std::process::Abort;
use std::test::Fail;

// What a call answers, or the number of its refusal.
fn told(returned: Result<u16, Refusal>) -> Result<u16, u8> {
    returned.map_err(|refusal| refusal.number())
}

// A memory of 4096 words that begins with these.
fn laid(words: &[u16], heap: Global) -> Result<WordMemory, Fail> {
    let mut memory = WordMemory::new(vec![in heap; 0; 4096]?);
    for (address, word) in (0..4096u16).zip(words.iter()) {
        memory.store(address, *word);
    }
    Ok(memory)
}

// Each clock answers what is expected of it.
fn clocks(
    rt: &impl Abort,
    computer: &mut ClockComputer,
    memory: &mut WordMemory,
    expected: &[u16],
) {
    let mut line = QuietLine;
    for answer in expected {
        match computer.clock(memory, &mut line) {
            Ok(k) => assert_eq!(rt; k, *answer),
            Err(_) => assert!(rt; false),
        }
    }
}

#[test]
fn lda_takes_six_clocks(rt: HostRuntime) -> Result<(), Fail> {
    let mut memory = laid(&[0x2010], rt.alloc())?;
    let mut computer = ClockComputer::new();
    assert_eq!(rt; told(computer.deposit(&mut memory, 0x010, 0xBEEF)), Ok(0));
    assert_eq!(rt; told(computer.start()), Ok(0));
    clocks(&rt, &mut computer, &mut memory, &[0, 0, 0, 0, 0, 6]);
    assert_eq!(rt; computer.registers().ac, 0xBEEF);
    assert_eq!(rt; computer.registers().pc, 1);
    Ok(())
}

#[test]
fn isz_skips_on_the_new_word(rt: HostRuntime) -> Result<(), Fail> {
    let mut memory = laid(&[0x6001, 0xFFFF], rt.alloc())?;
    let mut computer = ClockComputer::new();
    assert_eq!(rt; told(computer.start()), Ok(0));
    clocks(&rt, &mut computer, &mut memory, &[0, 0, 0, 0, 0, 0, 7]);
    assert_eq!(rt; memory.fetch(1), 0);
    assert_eq!(rt; computer.registers().pc, 2);
    Ok(())
}

#[test]
fn ion_lets_an_interrupt_in(rt: HostRuntime) -> Result<(), Fail> {
    let mut memory = laid(&[0xF080, 0x7020], rt.alloc())?;
    let mut computer = ClockComputer::new();
    assert_eq!(rt; told(computer.start()), Ok(0));
    clocks(&rt, &mut computer, &mut memory, &[0, 0, 0, 4, 0, 0, 0, 4]);
    assert!(rt; computer.registers().r);
    clocks(&rt, &mut computer, &mut memory, &[0, 0, 3]);
    assert_eq!(rt; memory.fetch(0), 2);
    assert_eq!(rt; computer.registers().pc, 1);
    assert!(rt; !computer.registers().ien);
    Ok(())
}

#[test]
fn examine_answers_inside_a_cycle(rt: HostRuntime) -> Result<(), Fail> {
    let mut memory = laid(&[0x1002, 0, 0x1234], rt.alloc())?;
    let mut computer = ClockComputer::new();
    assert_eq!(rt; told(computer.start()), Ok(0));
    clocks(&rt, &mut computer, &mut memory, &[0, 0, 0, 0, 0]);
    let before = computer.registers();
    match computer.examine(&memory, 0x000) {
        Ok(word) => assert_eq!(rt; word, 0x1002),
        Err(_) => assert!(rt; false),
    }
    assert!(rt; computer.registers() == before);
    clocks(&rt, &mut computer, &mut memory, &[6]);
    Ok(())
}

#[test]
fn calls_are_refused_by_number(rt: HostRuntime) -> Result<(), Fail> {
    let mut small = WordMemory::new(vec![in rt.alloc(); 0; 8]?);
    let mut memory = laid(&[], rt.alloc())?;
    let mut computer = ClockComputer::new();
    assert_eq!(rt; told(computer.clock(&mut small, &mut QuietLine)), Err(1));
    assert_eq!(rt; told(computer.clock(&mut memory, &mut QuietLine)), Err(3));
    assert_eq!(rt; told(computer.aim(0x1000)), Err(2));
    assert_eq!(rt; told(computer.examine(&memory, 0x1000)), Err(2));
    assert_eq!(rt; told(computer.start()), Ok(0));
    assert_eq!(rt; told(computer.start()), Err(4));
    assert_eq!(rt; told(computer.deposit(&mut memory, 0, 0)), Err(4));
    Ok(())
}
