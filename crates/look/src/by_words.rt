// Programs as words, one to a line of standard input, and for each the answer on one line.
use crate::answers::lent;
use cli::lending::Lent;
use cli::lines::Lines;
use cli::numbers;
use cli::troubles::Trouble;
use fences::looking::Verdict;

fn answer_one(rt: &HostRuntime, lent: &mut Lent, words: &[u32]) -> Result<(), Trouble> {
    match lent.look(words) {
        Ok(Verdict::Plain) => rt.println("plain")?,
        Ok(Verdict::Fences(moves, fences)) => {
            let count = fences.saturating_mul(2).saturating_add(moves);
            let told = numbers::line(rt.alloc(), lent.told(0, count))?;
            println!(rt; "fences {moves} {fences} {told}")?;
        }
        Err(refusal) => rt.println(refusal)?,
    }
    Ok(())
}

// Answers for each line in turn, up to the end or to the first line that is refused.
// Both programs have this loop: one function for both would take what answers a line, and be longer by that one's contract.
pub fn answer(rt: &HostRuntime) -> Result<(), Trouble> {
    let mut lent = lent(rt.alloc())?;
    for words in Lines::new(rt)? {
        answer_one(rt, &mut lent, words?.as_slice())?;
    }
    Ok(())
}
