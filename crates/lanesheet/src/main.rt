//! Reads a program sheet from standard input, lays it in zeroed memory and lists its words.
#![tactic(auto)]

ghost use Rattle.std.specs.Prelude.{◌≡◌, ◌+◌, min};

use fields::Report;
use memory::{Memory, WordMemory};
use sheets::LayingFault;
use sheets::assembly::assemble;
use std::io;
use std::io::Read;

/// The last address of a listing of at most 256 rows.
fn last_row(lowest: u16, highest: u16) -> u16
    ensures { result ≡ min highest (lowest + 255) }
{
    highest.min(lowest.saturating_add(255))
}

/// Lists the words from the lowest address to the highest, at most 256 of them.
fn list(rt: &HostRuntime, memory: &WordMemory, laid: (usize, u16, u16)) -> io::Result<()> {
    let (count, lowest, highest) = laid;
    println!(rt; "ADR WORD")?;
    if count == 0 {
        return Ok(());
    }
    for address in lowest..=last_row(lowest, highest) {
        let word = memory.fetch(address);
        println!(rt; "{address:03X} {word:04X}")?;
    }
    Ok(())
}

/// Tells the number of a refusal, its line and its layer.
fn refuse(rt: &HostRuntime, report: Report) -> io::Result<()> {
    println!(rt; "NUMBER LINE LAYER")?;
    println!(rt; "{} {} {}", report.number, report.line, report.layer)
}

fn main(rt: HostRuntime) -> io::Result<()> {
    // one byte more than a sheet may have tells that it is too long
    let mut text = Vec::new(rt.alloc());
    rt.stdin().take(65_536).read_to_end(&mut text)?;
    let mut memory = WordMemory::new(vec![in rt.alloc(); 0; 4096]?);
    match assemble(rt.alloc(), 512, text.as_slice(), &mut memory)? {
        Ok(laid) => list(&rt, &memory, laid),
        Err(LayingFault::Sheet(fault)) => refuse(&rt, fault.report()),
        Err(LayingFault::MemorySize) => unreachable(),
    }
}
