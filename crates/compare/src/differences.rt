// Words, what both answers say of them, and whether that is the same. Every difference is printed in full.
use crate::answers::{Answer, Said};
use crate::by_states::First;
use crate::kinds::{Counts, Kind};
use crate::runs::Fault;
use crate::{answers, by_orders, by_states, runs};
use cli::lending::Lent;
use cli::numbers;
use orders::threads::{Threads, threads_of};
use program::words::from_words;
use std::alloc::{AllocError, Global};
use thiserror::Error;

// In what the two differ.
#[derive(Debug, Drop, Error)]
enum Difference {
    #[error("what is answered")]
    Said,
    #[error("the outcomes")]
    Outcomes,
    #[error("plain or not")]
    Plain,
    #[error("the fences")]
    Fences,
    #[error("the told run: {0}")]
    Run(#[from] Fault),
}

// What orders say of words. Of a program with too many states they are not asked.
fn second_of(heap: Global, first: &First, program: &Option<Threads>) -> Result<Said, AllocError> {
    match (program, &first.said) {
        (None, _) => Ok(Said::NoProgram),
        (Some(_), Said::Crowded) => Ok(Said::Crowded),
        (Some(threads), _) => Ok(Said::Program(by_orders::ask(heap, threads.as_slice())?)),
    }
}

fn program_of(heap: Global, words: &[u32]) -> Result<Option<Threads>, AllocError> {
    from_words(words).map(|p| threads_of(heap, &p)).transpose()
}

// Words, the program that they are, and what both answers say of them.
#[derive(Drop)]
struct Both<'a> {
    words: &'a [u32],
    program: Option<Threads>,
    first: First,
    second: Said,
}

impl<'a> Both<'a> {
    fn ask(heap: Global, lent: &mut Lent, words: &'a [u32]) -> Result<Both<'a>, AllocError> {
        let first = by_states::ask(heap, lent, words)?;
        let program = program_of(heap, words)?;
        let second = second_of(heap, &first, &program)?;
        Ok(Both {
            words,
            program,
            first,
            second,
        })
    }

    // The two say the same of a program, and the run that the first tells is one of it.
    fn agree_on(
        &self,
        heap: Global,
        threads: &Threads,
        first: &Answer,
        second: &Answer,
    ) -> Result<(), Difference> {
        if first.rows != second.rows {
            return Err(Difference::Outcomes);
        }
        match (&first.fences, &second.fences) {
            (None, None) => Ok(()),
            (Some(one), Some(other)) if one == other => {
                let moves = self.first.moves.as_slice();
                runs::check(heap, threads.as_slice(), moves, second.rows.as_slice())?;
                Ok(())
            }
            (Some(_), Some(_)) => Err(Difference::Fences),
            _ => Err(Difference::Plain),
        }
    }

    // The two say the same.
    fn agree(&self, heap: Global) -> Result<(), Difference> {
        match (&self.program, &self.first.said, &self.second) {
            (None, Said::NoProgram, Said::NoProgram) => Ok(()),
            (Some(_), Said::Crowded, Said::Crowded) => Ok(()),
            (Some(threads), Said::Program(one), Said::Program(other)) => self.agree_on(
                heap, threads, one, other,
            ),
            _ => Err(Difference::Said),
        }
    }

    fn count(&self, counts: &mut Counts) {
        counts.add_words(&self.second);
        if let Some(threads) = &self.program {
            counts.add_program(threads.as_slice());
        }
    }

    fn print(&self, rt: &HostRuntime, what: &Difference) -> anyhow::Result<()> {
        let heap = rt.alloc();
        let words = numbers::line(heap, self.words)?;
        let moves = numbers::line(heap, self.first.moves.as_slice())?;
        println!(rt; "difference in {what}")?;
        println!(rt; "words: {words}")?;
        println!(rt; "  by states; run: {moves}")?;
        answers::print(rt, &self.first.said)?;
        println!(rt; "  by orders")?;
        answers::print(rt, &self.second)
    }
}

// Compares what both say of the words, prints it if it differs, and counts it.
pub fn compare(
    rt: &HostRuntime,
    lent: &mut Lent,
    words: &[u32],
    counts: &mut Counts,
) -> anyhow::Result<()> {
    let heap = rt.alloc();
    let both = Both::ask(heap, lent, words)?;
    both.count(counts);
    match both.agree(heap) {
        Ok(()) => Ok(()),
        // want of memory says nothing of the two answers
        Err(Difference::Run(Fault::Memory(refused))) => Err(refused.into()),
        Err(what) => {
            counts.add(Kind::Differences);
            both.print(rt, &what)
        }
    }
}
