//! What holds of the two computers. Each function does nothing: its contract is a theorem, stated in `specs/`.
ghost use Rattle.machine.specs.Laws.{CycleByClocks, TwinsAgree, SevenAtMost, SevenAtMostByCycles, ClocksCounted, SevenEndOne, CyclesInOrder, InterruptInTime, CharacterStays, InvariantKept, RunIsCycles};
ghost use Rattle.machine.specs.Readings.{Readings};
ghost use Rattle.machine.specs.Cosimulation.{RunsLawful, SideBySide};

/// The clocks of a cycle, made one by one, answer and leave what one cycle answers and leaves.
pub fn cycle_by_clocks()
    ensures { CycleByClocks }
{}

/// After every list of calls, the twin that was given the short list returned the same, call by call, and agrees whenever
/// no cycle is under way.
pub fn twins_agree()
    ensures { TwinsAgree }
{}

/// No cycle takes more than seven clocks: no clock and no cycle answers more, each answer counts the clocks granted since
/// the last cycle ended, and seven granted clocks always end one.
pub fn seven_clocks()
    ensures most { SevenAtMost }
    ensures cycles { SevenAtMostByCycles }
    ensures counted { ClocksCounted }
    ensures ended { SevenEndOne }
{}

/// The cycles made during a list of calls are those of its first part, and then those of the rest.
pub fn cycles_in_order()
    ensures { CyclesInOrder }
{}

/// An interrupt asked for anywhere in a list of calls is noted by the next cycle to end, and taken by the one after it.
pub fn interrupt_in_time()
    ensures { InterruptInTime }
{}

/// From the beat that hands it over, a character stays in INPR until it is taken.
pub fn character_stays()
    ensures { CharacterStays }
{}

/// Every call of every list keeps the registers sound.
pub fn invariant_kept()
    ensures { InvariantKept }
{}

/// A run makes the cycles that it answers, one after the other, and no fewer than asked unless S went down.
pub fn run_is_cycles()
    ensures { RunIsCycles }
{}

/// The readings taken from the board.
pub fn readings_stand()
    ensures { Readings }
{}

/// Calls taken one by one on both computers come to the two runs: all of them on the first, their short list on its twin.
pub fn side_by_side()
    ensures { SideBySide }
{}

/// The laws, of two such runs from equal contents and lines that reply alike.
pub fn runs_lawful()
    ensures { RunsLawful }
{}
