//! Words and addresses.
ghost use Rattle.std.specs.Prelude.{◌≡◌, if◌then◌else◌};
ghost use Rattle.machine.specs.Words.{up12};

/// Bit i of a word.
#[macro_export]
macro_rules! bit {
    ($word:expr, $i:literal) => {
        ($word >> $i) % 2 == 1
    };
}

/// One more, in 12 bits.
pub fn up12(address: u16) -> u16
    ensures { result ≡ up12 address }
{
    address.wrapping_add(1) % 4096
}

/// PC, past one more word where that is skipped.
pub fn skipped(pc: u16, skip: bool) -> u16
    ensures { result ≡ (if skip then up12 pc else pc) }
{
    if skip { up12(pc) } else { pc }
}
