//! Why a call is turned down.
ghost use Rattle.std.specs.Prelude.{◌≡◌};
ghost use Rattle.machine.specs.Calls.{number};

/// Why a call is turned down. A refusal changes nothing.
#[derive(Clone, Copy, Debug, PartialEq, Eq)]
pub enum Refusal {
    /// The memory has not 4096 words.
    MemorySize,
    /// The address is above FFF.
    AddressRange,
    /// S is down.
    Stopped,
    /// S is up.
    Running,
}

impl Refusal {
    /// The number by which the panel tells a refusal.
    pub fn number(self) -> u8
        ensures { result ≡ number self }
    {
        match self {
            Refusal::MemorySize => 1,
            Refusal::AddressRange => 2,
            Refusal::Stopped => 3,
            Refusal::Running => 4,
        }
    }
}
