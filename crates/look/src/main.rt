// look [FILE]: is a program of threads plain; if not, a run that shows it, and the fewest fences.
#![tactic(auto)]

mod answers;
mod by_words;
mod moves;
mod verdict;

use cli::troubles::Trouble;
use cli::{arguments, running, troubles};
use std::process::ExitCode;

const HELP: &str = "usage: look [--help | --to-words] [FILE]
       look --words

Reads a program of one to four threads from FILE, or from standard input, and
says whether it is plain: whether everything that comes out where stores wait
before they go to memory also comes out where they don't. If it is not, look
prints a run that shows it, move by move, with the places that stores wait for;
the fewest fences with which the program is plain; and the program with them in.

  --words     read a program as words from each line of standard input, and
              answer on a line each: `plain`, `crowded`, `no program`, or
              `fences M K`, M moves, and thread and instruction of K fences
  --to-words  print the program's words on one line
  --help      print this text

docs/FORMAT.md says how programs are written.";

// Both programs have this: one function for both would write the contracts of `running::run` a second time.
fn run(rt: &HostRuntime) -> Result<(), Trouble> {
    running::run(
        rt,
        arguments::asked(rt)?,
        HELP,
        verdict::answer,
        by_words::answer,
    )
}

fn main(rt: HostRuntime) -> ExitCode {
    troubles::status(&rt, run(&rt))
}
