//! A sheet that is read line by line.
ghost use Rattle.std.specs.Prelude.{◌+◌, ◌≤◌, length};

mod step;

/// A sheet that is read up to some line: the text behind it, the lines read, and the address counter.
#[derive(Clone, Copy)]
pub(crate) struct Walk<'a> {
    rest: &'a [u8],
    lines: u16,
    address: u32,
    ghost short: { lines + length rest.now ≤ 65535 },
    ghost near: { address ≤ 65535 + lines },
}
