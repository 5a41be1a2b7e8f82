//! Bytes to standard output.
use std::io;
use std::io::Write;

/// Writes some bytes.
pub(crate) fn say(rt: &HostRuntime, text: &[u8]) -> io::Result<()> {
    rt.stdout().write_all(text)
}

/// Writes some bytes and ends the line.
pub(crate) fn say_line(rt: &HostRuntime, text: &[u8]) -> io::Result<()> {
    say(rt, text)?;
    println!(rt)
}
