//! Lays each of the sheets on standard input and tells what came of it. A line that begins with `=` is the title of the
//! sheet below it.
#![tactic(auto)]

use fields::Lines;
use memory::{Memory, WordMemory};
use sheets::LayingFault;
use sheets::assembly::assemble;
use std::io;
use std::io::{Read, Write};

#[cfg(test)]
mod tests;

/// Tells the words from the lowest address to the highest.
fn tell_words(rt: &HostRuntime, memory: &WordMemory, laid: (usize, u16, u16)) -> io::Result<()> {
    let (count, lowest, highest) = laid;
    print!(rt; "  {count} from {lowest:03X} to {highest:03X}:")?;
    if count > 0 {
        for address in (lowest..=highest).take(16) {
            let word = memory.fetch(address);
            print!(rt; " {word:04X}")?;
        }
    }
    println!(rt)
}

/// Lays one sheet in zeroed memory with a book of 512.
fn tell(rt: &HostRuntime, sheet: &[u8]) -> io::Result<()> {
    let mut memory = WordMemory::new(vec![in rt.alloc(); 0; 4096]?);
    match assemble(rt.alloc(), 512, sheet, &mut memory)? {
        Ok(laid) => tell_words(rt, &memory, laid),
        Err(LayingFault::Sheet(fault)) => {
            let report = fault.report();
            println!(rt; "  refused: {report}")
        }
        Err(LayingFault::MemorySize) => println!(rt; "  refused: 1"),
    }
}

/// Lays every sheet of a text in turn.
fn tell_all(rt: &HostRuntime, text: &[u8]) -> io::Result<()> {
    let mut sheet = Vec::new(rt.alloc());
    let mut titled = false;
    for line in Lines::new(text) {
        if let [b'=', ..] = line {
            if titled {
                tell(rt, sheet.as_slice())?;
            }
            titled = true;
            sheet.clear();
            rt.stdout().write_all(line)?;
            println!(rt)?;
        } else {
            sheet.extend_from_slice(line)?;
            sheet.push(b'\n')?;
        }
    }
    tell(rt, sheet.as_slice())
}

fn main(rt: HostRuntime) -> io::Result<()> {
    let mut text = Vec::new(rt.alloc());
    rt.stdin().read_to_end(&mut text)?;
    tell_all(&rt, text.as_slice())
}
