// outcomes [FILE]: all outcomes of a program of threads, with and without waiting stores.
#![tactic(auto)]

mod by_words;
mod listing;
mod rows;
mod table;

use cli::troubles::Trouble;
use cli::{arguments, running, troubles};
use std::process::ExitCode;

const HELP: &str = "usage: outcomes [--help | --to-words] [FILE]
       outcomes --words

Reads a program of one to four threads from FILE, or from standard input, and
prints all its outcomes, a line each: the registers that it uses and the places
that it names. An outcome marked * comes out only where stores wait before they
go to memory.

  --words     read a program as words from each line of standard input, and
              print its outcomes, a line each: `both` or `waiting`, all registers
              thread by thread, and memory; then an empty line. In place of the
              outcomes stands `no program` or `crowded` where that is the answer
  --to-words  print the program's words on one line
  --help      print this text

docs/FORMAT.md says how programs are written.";

// Both programs have this: one function for both would write the contracts of `running::run` a second time.
fn run(rt: &HostRuntime) -> Result<(), Trouble> {
    running::run(
        rt,
        arguments::asked(rt)?,
        HELP,
        table::answer,
        by_words::answer,
    )
}

fn main(rt: HostRuntime) -> ExitCode {
    troubles::status(&rt, run(&rt))
}
