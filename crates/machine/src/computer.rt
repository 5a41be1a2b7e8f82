//! What every computer of the bench can be asked.
ghost use Rattle.std.specs.Prelude.{◌≡◌, ℕ, true, is_err};
ghost use Rattle.memory.specs.Contents.{Contents};
ghost use Rattle.line.specs.Rules.{Rule};
ghost use Rattle.machine.specs.declared.call.Call.{Call};
ghost use Rattle.machine.specs.declared.call.Call.TheVariants.{Clock, Start, Aim, Deposit, Examine};
ghost use Rattle.machine.specs.Calls.{outcome, Called};

use crate::call::Call;
use crate::refusal::Refusal;
use line::Line;
use memory::Memory;

// A memory and a line are passed to each call, as the project asks: a computer owns its registers and nothing else.
/// A computer that is put together with a memory and a line, and run from a panel. Each call answers a number, or is
/// refused and changes nothing.
pub trait Computer {
    /// What the definitions speak of.
    ghost Board: { Type 0 };

    /// The computer as a board, with the contents of its memory and the rule of its line.

    ghost board: { Self → Contents → Rule → Board };

    /// What a call gives on a board: its answer or refusal, and the board after it.
    ghost on: { Call → Board → Called ℕ Board };

    /// One clock; on a computer that makes whole cycles, one cycle. Answers the clocks of the cycle that it ends, or 0.
    // 0 and no Option: every call answers a number on the panel, so that one type serves lists of calls.
    fn clock<M: Memory, L: Line>(&mut self, memory: &mut M, line: &mut L) -> Result<u16, Refusal>
        ensures outcome { outcome result ≡ (on Clock (board self.old (M.contents memory.old) (L.replies line.old))).outcome }
        ensures after { board self.new (M.contents memory.new) (L.replies line.new) ≡ (on Clock (board self.old (M.contents memory.old) (L.replies line.old))).after }
        ensures refusal { is_err result ≡ true → (self.new ≡ self.old) × (memory.new ≡ memory.old) × (line.new ≡ line.old) };

    /// Raises S. Answers 0.
    fn start(&mut self) -> Result<u16, Refusal>
        ensures outcome { (contents : Contents) (rule : Rule) → outcome result ≡ (on Start (board self.old contents rule)).outcome }
        ensures after { (contents : Contents) (rule : Rule) → board self.new contents rule ≡ (on Start (board self.old contents rule)).after }
        ensures refusal { is_err result ≡ true → self.new ≡ self.old };

    /// Sets PC to an address. Answers 0.
    fn aim(&mut self, address: u16) -> Result<u16, Refusal>
        ensures outcome { (contents : Contents) (rule : Rule) → outcome result ≡ (on (Aim address) (board self.old contents rule)).outcome }
        ensures after { (contents : Contents) (rule : Rule) → board self.new contents rule ≡ (on (Aim address) (board self.old contents rule)).after }
        ensures refusal { is_err result ≡ true → self.new ≡ self.old };

    /// Stores a word at an address. Answers 0.
    fn deposit<M: Memory>(
        &mut self,
        memory: &mut M,
        address: u16,
        word: u16,
    ) -> Result<u16, Refusal>
        ensures outcome { (rule : Rule) → outcome result ≡ (on (Deposit address word) (board self.old (M.contents memory.old) rule)).outcome }
        ensures after { (rule : Rule) → board self.new (M.contents memory.new) rule ≡ (on (Deposit address word) (board self.old (M.contents memory.old) rule)).after }
        ensures refusal { is_err result ≡ true → (self.new ≡ self.old) × (memory.new ≡ memory.old) };

    /// Answers the word at an address, and changes nothing.
    fn examine<M: Memory>(&mut self, memory: &M, address: u16) -> Result<u16, Refusal>
        ensures outcome { (rule : Rule) → outcome result ≡ (on (Examine address) (board self.old (M.contents memory.now) rule)).outcome }
        ensures after { (rule : Rule) → board self.new (M.contents memory.now) rule ≡ (on (Examine address) (board self.old (M.contents memory.now) rule)).after }
        ensures untouched { self.new ≡ self.old };

    /// Carries out a call, and answers what the call answers.
    fn perform<M: Memory, L: Line>(
        &mut self,
        call: Call,
        memory: &mut M,
        line: &mut L,
    ) -> Result<u16, Refusal>
        ensures outcome { outcome result ≡ (on call (board self.old (M.contents memory.old) (L.replies line.old))).outcome }
        ensures after { board self.new (M.contents memory.new) (L.replies line.new) ≡ (on call (board self.old (M.contents memory.old) (L.replies line.old))).after }
        ensures refusal { is_err result ≡ true → (self.new ≡ self.old) × (memory.new ≡ memory.old) × (line.new ≡ line.old) }
    {
        match call {
            Call::Clock => self.clock(memory, line),
            Call::Start => self.start(),
            Call::Aim(address) => self.aim(address),
            Call::Deposit(address, word) => self.deposit(memory, address, word),
            Call::Examine(address) => self.examine(memory, address),
        }
    }
}
