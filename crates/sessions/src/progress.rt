//! Word of a long run.
use crate::counts::Counts;
use std::io;

/// How many steps are made before there is word of them.
pub(crate) const CHUNK: u32 = 0x400_0000;

/// Tells how far a run has come, apart from what it prints.
pub(crate) fn tell_progress(rt: &HostRuntime, counts: Counts) -> io::Result<()> {
    let Counts { cycles, clocks, .. } = counts;
    eprintln!(rt; "{cycles} cycles, {clocks} clocks so far")
}
