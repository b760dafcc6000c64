// The second answer, by all memory orders and all lists of fences.
use crate::answers::Answer;
use orders::events::Rule;
use orders::fewest::fewest_fences;
use orders::outcomes::{Outcomes, outcomes_by};
use program::instructions::Instruction;
use std::alloc::{AllocError, Global};

// The outcomes as rows, sorted.
fn rows(heap: Global, waiting: &Outcomes, at_once: &Outcomes) -> Result<Vec<Vec<u32>>, AllocError> {
    let mut rows = Vec::new(heap);
    for outcome in waiting.iter() {
        let once = if at_once.contains(outcome) { 1 } else { 0 };
        let mut row = vec![in heap; once]?;
        row.extend_from_slice(outcome.as_slice())?;
        rows.push(row)?;
    }
    rows.sort()?;
    Ok(rows)
}

// What orders say of a program.
pub fn ask(heap: Global, threads: &[Vec<Instruction>]) -> Result<Answer, AllocError> {
    let waiting = outcomes_by(heap, Rule::Waiting, threads)?;
    let at_once = outcomes_by(heap, Rule::AtOnce, threads)?;
    let fences = if waiting.is_subset(&at_once) {
        None
    } else {
        // where no list worked it is an empty one, which the other answer never tells of a program that is not plain
        Some(fewest_fences(heap, threads)?.map_or(Vec::new(heap), |found| found.spots))
    };
    Ok(Answer {
        rows: rows(heap, &waiting, &at_once)?,
        fences,
    })
}
