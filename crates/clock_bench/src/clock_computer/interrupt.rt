//! The request for an interrupt cycle.
ghost use Rattle.std.specs.Prelude.{◌≡◌};
ghost use Rattle.clock_bench.specs.ClockComputers.{raised};

use machine::Registers;

// R after a clock past T2: up when interrupts are let in and a flag is up.
pub(super) fn raised(old: Registers) -> bool
    ensures { result ≡ raised old }
{
    if old.ien & (old.port.fgi | old.port.fgo) {
        true
    } else {
        old.r
    }
}
