// A told run, replayed without the machine: its moves are an order of events, in which a load comes when its instruction is
// done and a store when it goes to memory. What the run ends with is what this order makes of the program.
use orders::events::{Event, Rule, events_of, must_precede, stands_in};
use orders::numbers::outcome_of;
use orders::threads::Spot;
use program::instructions::Instruction;
use std::alloc::{AllocError, Global};
use thiserror::Error;

// What is wrong with a told run; or that memory was refused, so that it is not known.
#[derive(Debug, Drop, Error)]
pub enum Fault {
    #[error("a move can't be made, or some are missing")]
    Moves,
    #[error("it lacks events, or they are in no order that is allowed")]
    Order,
    #[error("its outcome comes out at once, too")]
    Outcome,
    #[error(transparent)]
    Memory(#[from(alloc)] AllocError),
}

// A move, by the number of its thread.
#[derive(Clone, Copy)]
enum Move {
    // the thread's next instruction
    Next(usize),
    // the thread's oldest store going to memory
    Out(usize),
}

impl Move {
    // The move that a told number is: a thread's number for its instruction and 4 more for its oldest store.
    fn told(m: u32) -> Move {
        if m < 4 {
            Move::Next(m as usize)
        } else {
            Move::Out(m as usize - 4)
        }
    }
}

// How far a replay is: how many instructions of each thread are done, and which events came.
#[derive(Drop)]
struct Replay<'a> {
    threads: &'a [Vec<Instruction>],
    events: Vec<Event>,
    done: Vec<usize>,
    order: Vec<Event>,
}

impl<'a> Replay<'a> {
    fn new(heap: Global, threads: &'a [Vec<Instruction>]) -> Result<Replay<'a>, AllocError> {
        Ok(Replay {
            threads,
            events: events_of(heap, threads)?,
            done: vec![in heap; 0usize; threads.len()]?,
            order: Vec::new(heap),
        })
    }

    // The event at a spot, if its instruction reads.
    fn read_at(&self, spot: Spot) -> Option<Event> {
        self.events
            .iter()
            .find(|e| !e.write && e.spot == spot)
            .copied()
    }

    // The first write of a thread that has not come. Events stand in program order.
    fn oldest_write(&self, thread: usize) -> Option<Event> {
        self.events
            .iter()
            .find(|e| e.write && e.spot.thread == thread && !stands_in(self.order.as_slice(), e))
            .copied()
    }

    // A thread does its next instruction, if it has one.
    fn do_next(&mut self, thread: usize) -> Result<(), Fault> {
        let code = self.threads.get(thread).ok_or(Fault::Moves)?;
        let done = self.done.get_mut(thread).ok_or(Fault::Moves)?;
        let index = *done;
        if index >= code.len() {
            return Err(Fault::Moves);
        }
        *done = index + 1;
        if let Some(e) = self.read_at(Spot { thread, index }) {
            self.order.push(e)?;
        }
        Ok(())
    }

    // A thread's oldest store goes to memory, if there is one whose instruction is done.
    fn let_out(&mut self, thread: usize) -> Result<(), Fault> {
        let done = self.done.get(thread).copied().ok_or(Fault::Moves)?;
        let e = self
            .oldest_write(thread)
            .filter(|e| e.spot.index < done)
            .ok_or(Fault::Moves)?;
        self.order.push(e)?;
        Ok(())
    }

    fn make(&mut self, m: Move) -> Result<(), Fault> {
        match m {
            Move::Next(thread) => self.do_next(thread),
            Move::Out(thread) => self.let_out(thread),
        }
    }

    // All instructions are done.
    fn is_finished(&self) -> bool {
        self.threads
            .iter()
            .zip(self.done.iter())
            .all(|(code, done)| *done >= code.len())
    }

    // All events stand in the order, none twice, and as total store order allows.
    fn is_allowed(&self) -> bool {
        let order = self.order.as_slice();
        order.len() == self.events.len()
            && self.events.iter().all(|e| stands_in(order, e))
            && order.iter().enumerate().all(|(at, later)| {
                order
                    .iter()
                    .take(at)
                    .all(|earlier| !must_precede(Rule::Waiting, later, earlier))
            })
    }
}

// Makes a told run again, to its end, and compares what it ends with: `rows` are the program's outcomes by orders.
pub fn check(
    heap: Global,
    threads: &[Vec<Instruction>],
    moves: &[u32],
    rows: &[Vec<u32>],
) -> Result<(), Fault> {
    let mut replay = Replay::new(heap, threads)?;
    for m in moves {
        replay.make(Move::told(*m))?;
    }
    if !replay.is_finished() {
        return Err(Fault::Moves);
    }
    if !replay.is_allowed() {
        return Err(Fault::Order);
    }
    let outcome = outcome_of(heap, threads, replay.order.as_slice())?;
    // a row that begins with 0 is an outcome that does not come out at once
    let mut only_waiting = vec![in heap; 0u32]?;
    only_waiting.extend_from_slice(outcome.as_slice())?;
    if rows.contains(&only_waiting) {
        Ok(())
    } else {
        Err(Fault::Outcome)
    }
}
