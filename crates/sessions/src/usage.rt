//! What the program can be asked for.

pub(crate) const USAGE: &str =
    "usage: sessions SHEET [options]        tries a program sheet on a bench

how
  --clock           clock by clock; by whole instructions unless told
  --both            on both benches at once, and tells whether they agree
  --from HEX        where to start: the lowest address laid unless told
  --cycles N        at most so many cycles, 100000 unless told
  --clocks N        at most so many clocks
  --trace           a row for each cycle or clock
  --time            how fast it went, on standard error

characters
  --input TEXT      these characters arrive
  --wait N          each so many clocks after the one before, 0 unless told
  --script FILE     a wait and a character on each line: 40 A, 0 \\n, 5 \\x07
  --paper N         room for so many printed characters, 4096 unless told

memory
  --image FILE      starts from a memory image in place of a sheet
  --save FILE       writes the memory afterwards: 8192 bytes, the high byte of each word first
  --examine HEX     shows a word afterwards, or with HEX-HEX all from one to another

It ends with the registers, what was printed, how many cycles, clocks and interrupts there were, and why it stopped.";
