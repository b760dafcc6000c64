// The readable form of programs: columns, one to a thread.
// Reading goes from `reading` (a text) over `pages` (lines, cells and what has been read so far), `cells` (an instruction)
// and `naming` (places by their names, kept in `places`) down to `tokens`, `pieces` (of a text) and `bytes`. `faults` says
// why a text is refused, and `misfits` where a cell goes wrong. `printing` is the way back. What is read and printed is a `source`.
#![tactic(auto)]

ghost use Rattle.text.specs.Fine.{EveryProgram};

pub mod bytes;
pub mod cells;
pub mod faults;
mod misfits;
pub mod naming;
pub mod pages;
pub mod pieces;
pub mod places;
pub mod printing;
pub mod reading;
pub mod source;
pub mod tokens;
pub mod words;

// Every program that words allow can be printed and read back, under any names for its threads: a theorem, and no code.
pub fn every_program_has_a_text() -> u8
    ensures { EveryProgram }
{
    0
}
