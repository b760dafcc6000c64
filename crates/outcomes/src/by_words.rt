// Programs as words, one to a line of standard input, and their outcomes as numbers.
use crate::listing::lent;
use crate::rows;
use cli::lending::Lent;
use cli::lines::Lines;
use cli::numbers;
use cli::troubles::Trouble;

// Prints the outcomes in `lent`, a line each.
fn print_outcomes(
    rt: &HostRuntime,
    lent: &Lent,
    threads: u32,
    count: usize,
) -> Result<(), Trouble> {
    let heap = rt.alloc();
    for row in rows::sorted(heap, lent.out.as_slice(), threads, count)?.iter() {
        let how = if row.at_once { "both" } else { "waiting" };
        let values = numbers::line(heap, row.values)?;
        println!(rt; "{how} {values}")?;
    }
    Ok(())
}

// Answers for one program, and ends the answer with an empty line.
fn answer_one(rt: &HostRuntime, lent: &mut Lent, words: &[u32]) -> Result<(), Trouble> {
    match lent.outcomes(words) {
        Ok(listing) => {
            let threads = words.first().copied().unwrap_or(0);
            print_outcomes(rt, lent, threads, listing.outcomes)?;
        }
        Err(refusal) => rt.println(refusal)?,
    }
    rt.println("")?;
    Ok(())
}

// Answers for each line in turn, up to the end or to the first line that is refused.
// Both programs have this loop: one function for both would take what answers a line, and be longer by that one's contract.
pub fn answer(rt: &HostRuntime) -> Result<(), Trouble> {
    let mut lent = lent(rt.alloc())?;
    for words in Lines::new(rt)? {
        answer_one(rt, &mut lent, words?.as_slice())?;
    }
    Ok(())
}
