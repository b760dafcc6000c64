// What a program does for what it is asked.
ghost use Rattle.std.specs.Prelude.{◌≡◌, Ok, OnOk};
ghost use Rattle.cli.specs.declared.arguments.Mode.TheVariants.{Answer, Words};

use crate::arguments::{Mode, Request};
use crate::input::Input;
use crate::troubles::Trouble;
use crate::{input, numbers};
use text::words::to_words;

// Answers for a program in columns by the first call, and for programs as words by the second.
pub fn run<A, W>(
    rt: &HostRuntime,
    asked: Request,
    help: &str,
    answer: A,
    words: W,
) -> Result<(), Trouble>
where
    A: Fn(&HostRuntime, Input) -> Result<(), Trouble>,
    W: Fn(&HostRuntime) -> Result<(), Trouble>,
    requires answer { A.IsAlwaysCallable answer }
    requires words { W.IsAlwaysCallable words }
    ensures answer { asked.mode ≡ Answer → OnOk result ((input : _) × A.post answer rt.entry input (Ok tt)) }
    ensures words { asked.mode ≡ Words → OnOk result (W.post words rt.entry (Ok tt)) }
{
    let Request { mode, file } = asked;
    match mode {
        Mode::Answer => {
            let input = input::read(rt, &file)?;
            answer(rt, input)?;
        }
        Mode::Help => rt.println(help)?,
        Mode::ToWords => {
            let input = input::read(rt, &file)?;
            let told = to_words(rt.alloc(), &input.source)?;
            rt.println(numbers::line(rt.alloc(), told.as_slice())?)?;
        }
        Mode::Words => words(rt)?,
    }
    Ok(())
}
