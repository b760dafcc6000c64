// The fewest fences that make a program plain, and of equally many the first list: all lists of spots are tried, the
// shorter first, by putting the fences in and going through all orders.
ghost use Rattle.std.specs.Prelude.{◌≡◌, vec_len, OnOk};

use crate::events::Rule;
use crate::outcomes::{Outcomes, outcomes_besides, outcomes_by};
use crate::threads::{Spot, with_fences};
use program::instructions::Instruction;
use std::alloc::{AllocError, Global};

// The list of fences, and what it took to find it.
#[derive(Drop)]
pub struct Fewest {
    pub spots: Vec<Spot>,
    pub lists: u64,
    pub orders: u64,
}

// The program, where fences may go, and what comes out of it at once; fences change nothing of that.
#[derive(Drop)]
struct Task<'a> {
    heap: Global,
    threads: &'a [Vec<Instruction>],
    spots: Vec<Spot>,
    at_once: Outcomes,
}

// A store stands before the spot and a load behind it. A fence elsewhere keeps no load from passing a store, so a list
// with such a fence never has the fewest: without it, it does the same.
fn may_help(code: &[Instruction], index: usize) -> bool {
    let store = code
        .iter()
        .take(index)
        .any(|i| matches!(*i, Instruction::Store(_, _)));
    let load = code
        .iter()
        .skip(index)
        .any(|i| matches!(*i, Instruction::Load(_, _)));
    store && load
}

// The spots where a fence may help.
fn spots_of(heap: Global, threads: &[Vec<Instruction>]) -> Result<Vec<Spot>, AllocError> {
    let mut spots = Vec::new(heap);
    for (thread, code) in threads.iter().enumerate() {
        for index in (0..code.len()).filter(|index| may_help(code.as_slice(), *index)) {
            spots.push(Spot { thread, index })?;
        }
    }
    Ok(spots)
}

// With these fences every outcome is one at once.
fn works(task: &Task, tried: &mut Fewest) -> Result<bool, AllocError>
    ensures { OnOk result (vec_len tried.new.spots ≡ vec_len tried.old.spots) }
{
    let fenced = with_fences(task.heap, task.threads, tried.spots.as_slice())?;
    let found = outcomes_besides(
        task.heap,
        Rule::Waiting,
        fenced.as_slice(),
        &task.at_once,
        1,
    )?;
    tried.lists = tried.lists.saturating_add(1);
    tried.orders = tried.orders.saturating_add(found.orders);
    Ok(found.outcomes.is_empty())
}

// Tries all lists that begin with this one and have `more` of these spots behind it, those with the first spot first;
// stops at the first list that works, and says whether there is one. It is no error: it is what is looked for.
fn try_longer(
    task: &Task,
    spots: &[Spot],
    more: usize,
    tried: &mut Fewest,
) -> Result<bool, AllocError> {
    if more == 0 {
        return works(task, tried);
    }
    let Some((first, rest)) = spots.split_first() else {
        return Ok(false);
    };
    tried.spots.push(*first)?;
    if try_longer(task, rest, more - 1, tried)? {
        return Ok(true);
    }
    tried.spots.pop();
    try_longer(task, rest, more, tried)
}

// The fewest fences, and of equally many the first list. None if no list works; but fences at all spots do.
pub fn fewest_fences(
    heap: Global,
    threads: &[Vec<Instruction>],
) -> Result<Option<Fewest>, AllocError> {
    let spots = spots_of(heap, threads)?;
    let at_once = outcomes_by(heap, Rule::AtOnce, threads)?;
    let task = Task {
        heap,
        threads,
        spots,
        at_once,
    };
    let mut tried = Fewest {
        spots: Vec::new(heap),
        lists: 0,
        orders: 0,
    };
    for more in 0..=task.spots.len() {
        if try_longer(&task, task.spots.as_slice(), more, &mut tried)? {
            return Ok(Some(tried));
        }
    }
    Ok(None)
}
