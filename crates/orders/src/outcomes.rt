// All outcomes of a program: every order that a rule allows, made one by one, and what comes out of it. What an order
// makes of the program is said elsewhere.
ghost use Rattle.std.specs.Prelude.{◌≡◌, vec_len};

use crate::events::{Event, Rule, events_of, must_precede, stands_in};
use crate::numbers::outcome_of;
use program::instructions::Instruction;
use std::alloc::{AllocError, Global};
use std::collections::BTreeSet;
use thiserror::Error;

// An outcome is all registers, thread by thread, and then memory.
pub type Outcomes = BTreeSet<Vec<u32>>;

// The program whose orders are made, its events, by which rule, and when to stop: when there are `most` outcomes that
// are not among the `known`.
#[derive(Drop)]
struct Task<'a, 'b> {
    heap: Global,
    threads: &'a [Vec<Instruction>],
    events: Vec<Event>,
    rule: Rule,
    known: &'b Outcomes,
    most: usize,
}

// The outcomes that are not among the known, and how many orders were made.
#[derive(Drop)]
pub struct Found {
    pub outcomes: Outcomes,
    pub orders: u64,
}

// Why orders are made no further: there are outcomes enough, or memory was refused.
#[derive(Debug, Drop, Error)]
enum Stop {
    #[error("enough")]
    Enough,
    #[error(transparent)]
    Memory(#[from(alloc)] AllocError),
}

impl Found {
    // Adds an outcome.
    fn note(&mut self, task: &Task, outcome: Vec<u32>) -> Result<(), Stop> {
        self.orders = self.orders.saturating_add(1);
        if !task.known.contains(&outcome) {
            self.outcomes.insert(outcome)?;
        }
        if self.outcomes.len() < task.most {
            Ok(())
        } else {
            Err(Stop::Enough)
        }
    }
}

// The event may come next: it has not come, and all that must precede it have.
fn may_come(task: &Task, order: &[Event], e: &Event) -> bool {
    !stands_in(order, e)
        && task
            .events
            .iter()
            .all(|a| !must_precede(task.rule, a, e) || stands_in(order, a))
}

// Goes through all orders that begin with this one. Of the events that may come next the last is taken first, since a read
// that passes a write gives something new more often.
fn extend(task: &Task, order: &mut Vec<Event>, found: &mut Found) -> Result<(), Stop>
    ensures { vec_len order.new ≡ vec_len order.old }
{
    if order.len() >= task.events.len() {
        let outcome = outcome_of(task.heap, task.threads, order.as_slice())?;
        return found.note(task, outcome);
    }
    for e in task.events.iter().rev() {
        if may_come(task, order.as_slice(), e) {
            order.push(*e)?;
            let extended = extend(task, order, found);
            // also where it stopped, so that the order is as it was
            order.pop();
            extended?;
        }
    }
    Ok(())
}

// The outcomes by a rule that are not among the known; only `most` of them if there are more.
pub fn outcomes_besides(
    heap: Global,
    rule: Rule,
    threads: &[Vec<Instruction>],
    known: &Outcomes,
    most: usize,
) -> Result<Found, AllocError> {
    let events = events_of(heap, threads)?;
    let task = Task {
        heap,
        threads,
        events,
        rule,
        known,
        most,
    };
    let mut order = Vec::new(heap);
    let mut found = Found {
        outcomes: BTreeSet::new(heap),
        orders: 0,
    };
    match extend(&task, &mut order, &mut found) {
        Ok(()) | Err(Stop::Enough) => Ok(found),
        Err(Stop::Memory(refused)) => Err(refused),
    }
}

// All outcomes by a rule.
pub fn outcomes_by(
    heap: Global,
    rule: Rule,
    threads: &[Vec<Instruction>],
) -> Result<Outcomes, AllocError> {
    let none = BTreeSet::new(heap);
    let found = outcomes_besides(heap, rule, threads, &none, usize::MAX)?;
    Ok(found.outcomes)
}

// Every outcome with waiting is one at once.
pub fn is_plain(heap: Global, threads: &[Vec<Instruction>]) -> Result<bool, AllocError> {
    let at_once = outcomes_by(heap, Rule::AtOnce, threads)?;
    let found = outcomes_besides(heap, Rule::Waiting, threads, &at_once, 1)?;
    Ok(found.outcomes.is_empty())
}
