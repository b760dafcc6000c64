// The verdict on a program, and what shows it.
use crate::answers::lent;
use crate::moves;
use cli::fenced;
use cli::input::Input;
use cli::troubles::{Trouble, Wanted, Why};
use fences::looking::Verdict;
use text::source::Source;
use text::{printing, words};

// Prints where each fence is put, by the thread's name and the number of the instruction behind it.
fn print_fences(rt: &HostRuntime, source: &Source, fences: &[u32]) -> Result<(), Trouble> {
    for fence in fences.chunks_exact(2) {
        if let [thread, instruction] = *fence
            && let Some(thread) = source.threads.get(thread as usize)
        {
            let name = thread.name.as_str();
            let line = instruction.saturating_add(1);
            println!(rt; "a fence before instruction {line} of {name}")?;
        }
    }
    Ok(())
}

fn print_verdict(rt: &HostRuntime, fences: usize) -> Result<(), Trouble> {
    if fences == 1 {
        rt.println("not plain: 1 fence makes it plain")?;
        return Ok(());
    }
    println!(rt; "not plain: {fences} fences make it plain, fewer do not")?;
    Ok(())
}

fn print_not_plain(
    rt: &HostRuntime,
    source: &Source,
    told: &[u32],
    fences: &[u32],
) -> Result<(), Trouble> {
    let heap = rt.alloc();
    let count = told.len();
    println!(rt; "\n{count} moves to an outcome that can't come out at once:\n")?;
    moves::print(rt, source, told)?;
    rt.println("")?;
    print_fences(rt, source, fences)?;
    rt.println("")?;
    let fenced = fenced::fenced(heap, source, fences)?;
    rt.print(printing::print(heap, &fenced)?)?;
    if fenced::is_too_long(&fenced) {
        rt.println("\na thread has more than eight instructions now: this is not read back")?;
    }
    Ok(())
}

// Prints whether a program is plain; if it is not, a run that shows it and the fewest fences with which it is.
pub fn answer(rt: &HostRuntime, input: Input) -> Result<(), Trouble> {
    let heap = rt.alloc();
    let Input { name, source } = input;
    let words = words::to_words(heap, &source)?;
    let mut lent = lent(heap)?;
    match lent.look(words.as_slice()) {
        Ok(Verdict::Plain) => {
            rt.println("plain: all that comes out comes out at once")?;
            Ok(())
        }
        Ok(Verdict::Fences(count, fences)) => {
            print_verdict(rt, fences)?;
            let run = lent.told(0, count);
            let fences = lent.told(count, fences.saturating_mul(2));
            print_not_plain(rt, &source, run, fences)
        }
        Err(refusal) => Err(Trouble::Unanswered {
            file: name,
            why: Why {
                refusal,
                wanted: Wanted::Verdict,
            },
        }),
    }
}
