// What one of the two answers says of words, in one shape for both, so that it can be compared and printed.
use cli::numbers;
use fences::listing::Listed;
use fences::looking::{Looked, Verdict};
use orders::threads::Spot;
use std::alloc::{AllocError, Global};

// Of a program: its outcomes, sorted, a row each (1 if it also comes out at once, else 0; all registers, thread by thread;
// memory); and the fewest fences, if it is not plain.
#[derive(Drop)]
pub struct Answer {
    pub rows: Vec<Vec<u32>>,
    pub fences: Option<Vec<Spot>>,
}

#[derive(Drop)]
pub enum Said {
    NoProgram,
    Crowded,
    Program(Answer),
    // what `look` said and what `outcomes` said, where these don't go together
    Apart(Looked, Listed),
}

fn looked_name(heap: Global, looked: Looked) -> Result<String, AllocError> {
    match looked {
        Ok(Verdict::Plain) => String::from_str(heap, "plain"),
        Ok(Verdict::Fences(_, _)) => String::from_str(heap, "fences"),
        Err(refusal) => refusal.to_string(heap),
    }
}

fn listed_name(heap: Global, listed: Listed) -> Result<String, AllocError> {
    match listed {
        Ok(_) => String::from_str(heap, "outcomes"),
        Err(refusal) => refusal.to_string(heap),
    }
}

fn print_answer(rt: &HostRuntime, answer: &Answer) -> anyhow::Result<()> {
    match &answer.fences {
        None => rt.println("    plain")?,
        Some(fences) => {
            rt.println("    not plain")?;
            for spot in fences.as_slice() {
                let Spot { thread, index } = *spot;
                println!(rt; "    fence: thread {thread}, instruction {index}")?;
            }
        }
    }
    for row in answer.rows.as_slice() {
        let row = numbers::line(rt.alloc(), row.as_slice())?;
        println!(rt; "    outcome: {row}")?;
    }
    Ok(())
}

// Prints what was said, in full.
pub fn print(rt: &HostRuntime, said: &Said) -> anyhow::Result<()> {
    match said {
        Said::NoProgram => rt.println("    no program")?,
        Said::Crowded => rt.println("    crowded")?,
        Said::Program(answer) => print_answer(rt, answer)?,
        Said::Apart(looked, listed) => {
            let looked = looked_name(rt.alloc(), *looked)?;
            let listed = listed_name(rt.alloc(), *listed)?;
            println!(rt; "    look: {looked}; outcomes: {listed}")?;
        }
    }
    Ok(())
}
