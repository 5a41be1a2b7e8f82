//! Readings of the panel, which no sheet can make.
use crate::rig::board::Board;
use crate::rig::difference::Shown;
use crate::rig::{Outcome, Refused, Rig};
use crate::tally::Tally;
use machine::{Call, Refusal};
use memory::WordMemory;
use sheets::LayingFault;
use sheets::assembly::assemble;

/// What a call returns on both benches and on the second simulator, over a zeroed memory of that size.
fn returned(
    rt: &HostRuntime,
    size: usize,
    started: bool,
    call: Call,
) -> anyhow::Result<[Outcome; 3]> {
    let words = vec![in rt.alloc(); 0; size]?;
    let mut rig = Rig::new(rt.alloc(), words.as_slice(), &[], 0)?;
    if started {
        let _ = rig.clock.call(Call::Start);
        let _ = rig.instruction.call(Call::Start);
        let _ = rig.on_second(Call::Start);
    }
    Ok([
        rig.clock.call(call),
        rig.instruction.call(call),
        rig.on_second(call),
    ])
}

/// Tells what was read on both benches and on the second simulator, and what was expected.
fn tell(
    rt: &HostRuntime,
    read: [Outcome; 3],
    expected: Outcome,
    tally: &mut Tally,
) -> anyhow::Result<()> {
    let [clock, instruction, second] = read;
    print!(rt; ": read {}", Shown(clock))?;
    if instruction != clock || second != clock {
        print!(rt; ", {}, {}", Shown(instruction), Shown(second))?;
    }
    print!(rt; "; expected {}", Shown(expected))?;
    tally.end_row(
        rt,
        clock == expected && instruction == expected && second == expected,
    )?;
    Ok(())
}

/// What a run of five cycles returns over a zeroed memory of that size.
fn run_returned(rt: &HostRuntime, size: usize) -> anyhow::Result<Outcome> {
    let words = vec![in rt.alloc(); 0; size]?;
    let mut rig = Rig::new(rt.alloc(), words.as_slice(), &[], 0)?;
    let _ = rig.instruction.call(Call::Start);
    let Board {
        computer,
        memory,
        line,
    } = &mut rig.instruction;
    let ran = computer.run(memory, line, 5);
    Ok(
        ran.map(|(cycles, _)| u32::from(cycles))
            .map_err(Refused::from),
    )
}

/// What laying one word returns in a memory of that size.
fn laying_returned(rt: &HostRuntime, size: usize) -> anyhow::Result<Outcome> {
    let mut memory = WordMemory::new(vec![in rt.alloc(); 0; size]?);
    let laid = assemble(rt.alloc(), 1, b"HEX 1\nEND\n", &mut memory)?;
    Ok(
        laid.map(|(count, _, _)| (count % 65_536) as u32)
            .map_err(Refused::from),
    )
}

/// Every call that needs a memory refuses one of a wrong size.
fn tell_size(rt: &HostRuntime, size: usize, tally: &mut Tally) -> anyhow::Result<()> {
    let calls = [
        ("clock", Call::Clock),
        ("deposit", Call::Deposit(0, 1)),
        ("examine", Call::Examine(0)),
    ];
    let refused = Err(Refused::from(Refusal::MemorySize));
    for (name, call) in calls {
        print!(rt; "memory of {size} words, S up, {name}")?;
        tell(rt, returned(rt, size, true, call)?, refused, tally)?;
    }
    let run = run_returned(rt, size)?;
    print!(rt; "memory of {size} words, S up, run")?;
    tell(rt, [run; 3], refused, tally)?;
    let laying = laying_returned(rt, size)?;
    print!(rt; "memory of {size} words, laying")?;
    tell(rt, [laying; 3], Err(LayingFault::MemorySize.into()), tally)
}

/// Tells all readings of the panel.
pub(crate) fn try_panel(rt: &HostRuntime, tally: &mut Tally) -> anyhow::Result<()> {
    tell_size(rt, 4095, tally)?;
    tell_size(rt, 4097, tally)?;
    let calls = [
        ("aim FFF", Call::Aim(0xFFF), Ok(0)),
        (
            "aim 1000",
            Call::Aim(0x1000),
            Err(Refusal::AddressRange.into()),
        ),
        ("clock", Call::Clock, Err(Refusal::Stopped.into())),
    ];
    for (name, call, expected) in calls {
        print!(rt; "new computer, {name}")?;
        tell(rt, returned(rt, 4096, false, call)?, expected, tally)?;
    }
    Ok(())
}
