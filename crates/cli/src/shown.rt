// What is shown of an outcome: the registers that a program uses and the places that it names, under its own names.
use program::instructions::{Instruction, Place};
use std::alloc::{AllocError, Global};
use text::printing;
use text::source::{Source, Thread};

pub const REGISTERS: u32 = 4;

pub const PLACES: u32 = 8;

// A value of an outcome: what it is called, and where it stands among all registers, thread by thread, and memory.
#[derive(Drop)]
pub struct Shown {
    pub title: String,
    pub at: usize,
}

fn uses(i: Instruction, r: u32) -> bool {
    match i {
        Instruction::Set(a, _) => a.0 == r,
        Instruction::Add(a, b, c) => a.0 == r || b.0 == r || c.0 == r,
        Instruction::Load(a, _) => a.0 == r,
        Instruction::Store(_, a) => a.0 == r,
        Instruction::Fence => false,
    }
}

fn names(i: Instruction, x: u32) -> bool {
    match i {
        Instruction::Load(_, place) => place.0 == x,
        Instruction::Store(place, _) => place.0 == x,
        _ => false,
    }
}

fn thread_uses(thread: &Thread, r: u32) -> bool {
    thread.code.iter().any(|i| uses(*i, r))
}

fn program_names(source: &Source, x: u32) -> bool {
    source
        .threads
        .iter()
        .any(|thread| thread.code.iter().any(|i| names(*i, x)))
}

// Adds the registers that a thread uses, the first of which stands at `at`.
fn push_registers(
    heap: Global,
    all: &mut Vec<Shown>,
    thread: &Thread,
    at: usize,
) -> Result<(), AllocError> {
    for r in 0..REGISTERS {
        if thread_uses(thread, r) {
            let name = thread.name.as_str();
            let title = format!(in heap; "{name}.r{r}")?;
            all.push(Shown {
                title,
                at: at.saturating_add(r as usize),
            })?;
        }
    }
    Ok(())
}

// Adds the places that the program names, the first of which stands at `at`.
fn push_places(
    heap: Global,
    all: &mut Vec<Shown>,
    source: &Source,
    at: usize,
) -> Result<(), AllocError> {
    for x in 0..PLACES {
        if program_names(source, x) {
            let name = printing::place(heap, source.places.as_slice(), Place(x))?;
            let title = format!(in heap; "[{name}]")?;
            all.push(Shown {
                title,
                at: at.saturating_add(x as usize),
            })?;
        }
    }
    Ok(())
}

// Where the registers of thread `n` begin, or memory behind those of `n` threads.
fn first_of(n: usize) -> usize {
    n.saturating_mul(REGISTERS as usize)
}

// All that is shown, registers before places.
pub fn of_program(heap: Global, source: &Source) -> Result<Vec<Shown>, AllocError> {
    let mut all = Vec::new(heap);
    for (n, thread) in source.threads.iter().enumerate() {
        push_registers(heap, &mut all, thread, first_of(n))?;
    }
    push_places(heap, &mut all, source, first_of(source.threads.len()))?;
    Ok(all)
}
