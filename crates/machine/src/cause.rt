//! The causes of a refusal, each checked in one place. A call checks its own in order, and the first that holds counts.
ghost use Rattle.machine.specs.Calls.{wrong_size, past_the_end, stopped, running, Checked};

use crate::refusal::Refusal;

/// How many words a memory must have.
const WORDS: usize = 4096;

/// The last address.
const LAST: u16 = 0xFFF;

/// Refuses a memory of another size.
pub fn check_size(words: usize) -> Result<(), Refusal>
    ensures { Checked (wrong_size words) result }
{
    if words == WORDS {
        Ok(())
    } else {
        Err(Refusal::MemorySize)
    }
}

/// Refuses an address past the end.
pub fn check_address(address: u16) -> Result<(), Refusal>
    ensures { Checked (past_the_end address) result }
{
    if address <= LAST {
        Ok(())
    } else {
        Err(Refusal::AddressRange)
    }
}

/// Refuses where S is down: what must hold is that the computer runs, and the cause is that it stopped.
pub fn check_running(s: bool) -> Result<(), Refusal>
    ensures { Checked (stopped s) result }
{
    if s { Ok(()) } else { Err(Refusal::Stopped) }
}

/// Refuses where S is up, the other way round.
pub fn check_stopped(s: bool) -> Result<(), Refusal>
    ensures { Checked (running s) result }
{
    if s { Err(Refusal::Running) } else { Ok(()) }
}
