// Events, the reads and writes of a program, and which of two must come first in a memory order.
use crate::threads::Spot;
use program::instructions::{Instruction, Place, Register};
use std::alloc::{AllocError, Global};

// The instruction at a spot, which reads a place into a register or writes a register to a place. No other event stands
// at its spot. `fences` is how many fences stand before it in its thread.
#[derive(Clone, Copy)]
pub struct Event {
    pub spot: Spot,
    pub place: Place,
    pub register: Register,
    pub write: bool,
    pub fences: usize,
}

// Which orders there are: those that keep program order, or those of total store order.
#[derive(Clone, Copy, PartialEq, Eq)]
pub enum Rule {
    AtOnce,
    Waiting,
}

// How many fences stand before the instruction `end`.
fn fences_before(code: &[Instruction], end: usize) -> usize {
    code.iter()
        .take(end)
        .filter(|i| matches!(**i, Instruction::Fence))
        .count()
}

// The event of an instruction of this code, if it reads or writes a place.
fn event_of(code: &[Instruction], spot: Spot, instruction: Instruction) -> Option<Event> {
    let (write, place, register) = match instruction {
        Instruction::Load(register, place) => (false, place, register),
        Instruction::Store(place, register) => (true, place, register),
        Instruction::Set(_, _) | Instruction::Add(_, _, _) | Instruction::Fence => return None,
    };
    Some(Event {
        spot,
        place,
        register,
        write,
        fences: fences_before(code, spot.index),
    })
}

// All events, thread by thread and in program order.
pub fn events_of(heap: Global, threads: &[Vec<Instruction>]) -> Result<Vec<Event>, AllocError> {
    let mut events = Vec::new(heap);
    for (thread, code) in threads.iter().enumerate() {
        for (index, instruction) in code.iter().enumerate() {
            if let Some(e) = event_of(code.as_slice(), Spot { thread, index }, *instruction) {
                events.push(e)?;
            }
        }
    }
    Ok(events)
}

// They are one event.
pub fn same(a: &Event, b: &Event) -> bool {
    a.spot == b.spot
}

pub fn stands_in(order: &[Event], e: &Event) -> bool {
    order.iter().any(|a| same(a, e))
}

// The first stands before the second in their thread.
pub fn older(a: &Event, b: &Event) -> bool {
    a.spot.thread == b.spot.thread && a.spot.index < b.spot.index
}

// Every order has the first before the second. Program order is kept, but that under total store order a read may
// come before an older write with no fence between the two.
pub fn must_precede(rule: Rule, a: &Event, b: &Event) -> bool {
    let may_wait = rule == Rule::Waiting && a.write && !b.write && a.fences == b.fences;
    older(a, b) && !may_wait
}
