// What a memory order makes of a program: the number that each event reads or writes, and the registers and the memory
// at the end. Which orders there are is not said here.
ghost use Rattle.std.specs.Prelude.{◌≡◌, ◌+◌, ◌*◌, length, IfOk, vec_len, slice_set};

use crate::events::{Event, older};
use crate::threads::Spot;
use program::instructions::{Instruction, Register};
use std::alloc::{AllocError, Global};

// The number in a register, if there is one of this name.
fn number_in(registers: &[u32], r: Register) -> Option<u32> {
    registers.get(r.0 as usize).copied()
}

// A number into a cell; nothing changes past the end. By its index: through `get_mut` what it ensures is not proved.
fn put(cells: &mut [u32], i: u32, number: u32)
    ensures { cells.new ≡ slice_set cells.old i number }
{
    if (i as usize) < cells.len() {
        cells[i as usize] = number;
    }
}

// The write that a read sees, the `at`-th of the order: the newest, by the order, among the writes to its place that
// stand before it in the order or before it in its own thread.
fn seen_by(read: &Event, at: usize, order: &[Event]) -> Option<Event> {
    order
        .iter()
        .enumerate()
        .rev()
        .find(|(k, w)| w.write && w.place == read.place && (*k < at || older(w, read)))
        .map(|(_, w)| *w)
}

// A program under a memory order, and the numbers that the first events of the order read or write: none where a write
// is of a thread or a register that is not there.
#[derive(Drop)]
struct Known<'a> {
    threads: &'a [Vec<Instruction>],
    order: &'a [Event],
    numbers: Vec<Option<u32>>,
}

impl<'a> Known<'a> {
    // The number of the event at a spot, if it is known.
    fn number_of(&self, spot: Spot) -> Option<u32> {
        self.order
            .iter()
            .zip(self.numbers.iter())
            .find(|(e, _)| e.spot == spot)
            .and_then(|(_, number)| *number)
    }

    // The registers of a thread run by itself, before its instruction `end`; loads take the numbers that are known.
    fn registers_at(&self, code: &[Instruction], thread: usize, end: usize) -> [u32; 4] {
        let mut registers = [0; 4];
        for (index, instruction) in code.iter().enumerate().take(end) {
            match *instruction {
                Instruction::Set(r, n) => put(&mut registers, r.0, n),
                Instruction::Add(r, a, b) => {
                    if let (Some(a), Some(b)) = (
                        number_in(&registers, a),
                        number_in(&registers, b),
                    ) {
                        put(&mut registers, r.0, a.wrapping_add(b) % 16);
                    }
                }
                Instruction::Load(r, _) => {
                    if let Some(number) = self.number_of(Spot { thread, index }) {
                        put(&mut registers, r.0, number);
                    }
                }
                Instruction::Store(_, _) | Instruction::Fence => {}
            }
        }
        registers
    }

    // The number that a write writes, by running its thread up to it. The reads before it in its thread are known by
    // then: they come before it in every order, and before every read that sees it.
    fn written(&self, w: &Event) -> Option<u32> {
        let Spot { thread, index } = w.spot;
        let code = self.threads.get(thread)?;
        number_in(
            &self.registers_at(code.as_slice(), thread, index),
            w.register,
        )
    }

    // What the `at`-th event of the order reads or writes. Before the first write, memory holds 0.
    fn number_at(&self, at: usize, e: &Event) -> Option<u32> {
        if e.write {
            return self.written(e);
        }
        seen_by(e, at, self.order).map_or(Some(0), |w| self.written(&w))
    }

    // Memory after the writes, done in this order.
    fn memory(&self) -> [u32; 8] {
        let mut memory = [0; 8];
        for (e, number) in self.order.iter().zip(self.numbers.iter()) {
            if let Some(number) = *number
                && e.write
            {
                put(&mut memory, e.place.0, number);
            }
        }
        memory
    }
}

// What each event of the order reads or writes.
fn all_known<'a>(
    heap: Global,
    threads: &'a [Vec<Instruction>],
    order: &'a [Event],
) -> Result<Known<'a>, AllocError>
    ensures { IfOk result (λ k. vec_len k.numbers ≡ length order.now) }
{
    let mut known = Known {
        threads,
        order,
        numbers: Vec::new(heap),
    };
    for (at, e) in order.iter().enumerate() {
        let number = known.number_at(at, e);
        known.numbers.push(number)?;
    }
    Ok(known)
}

// The outcome of an order of all events: the threads' registers at the end, four each, and memory.
pub fn outcome_of(
    heap: Global,
    threads: &[Vec<Instruction>],
    order: &[Event],
) -> Result<Vec<u32>, AllocError>
    ensures { IfOk result (λ v. vec_len v ≡ 4 * length threads.now + 8) }
{
    let known = all_known(heap, threads, order)?;
    let mut outcome = Vec::new(heap);
    for (thread, code) in threads.iter().enumerate() {
        let end = known.registers_at(code.as_slice(), thread, code.len());
        outcome.extend_from_slice(&end)?;
    }
    outcome.extend_from_slice(&known.memory())?;
    Ok(outcome)
}
