// Programs as lists of instructions, of any length, so that fences can be put in. What they do is not said here.
ghost use Rattle.std.specs.Prelude.{◌≡◌, length, IfOk, vec_len};
ghost use Rattle.program.specs.Meaning.{thread, program};

use program::instructions::Instruction;
use program::threads::{Program, Thread};
use std::alloc::{AllocError, Global};

// The threads' instructions, in program order.
pub type Threads = Vec<Vec<Instruction>>;

// Where the instruction `index` of thread `thread` stands. A fence at a spot is put before it.
#[derive(Clone, Copy, PartialEq, Eq, Debug)]
pub struct Spot {
    pub thread: usize,
    pub index: usize,
}

fn instructions_of(heap: Global, t: &Thread) -> Result<Vec<Instruction>, AllocError>
    ensures { IfOk result (λ v. vec_len v ≡ length (thread t.now)) }
{
    t.instructions().to_vec(heap)
}

pub fn threads_of(heap: Global, p: &Program) -> Result<Threads, AllocError>
    ensures { IfOk result (λ v. vec_len v ≡ length (program p.now)) }
{
    let mut threads = Vec::new(heap);
    for t in p.threads() {
        threads.push(instructions_of(heap, t)?)?;
    }
    Ok(threads)
}

fn with_fences_in(
    heap: Global,
    code: &[Instruction],
    thread: usize,
    spots: &[Spot],
) -> Result<Vec<Instruction>, AllocError> {
    let mut fenced = Vec::new(heap);
    for (index, instruction) in code.iter().enumerate() {
        // a fence for each time that the spot stands in the list
        for _ in spots.iter().filter(|s| **s == Spot { thread, index }) {
            fenced.push(Instruction::Fence)?;
        }
        fenced.push(*instruction)?;
    }
    Ok(fenced)
}

// The program with a fence instruction at each spot.
pub fn with_fences(
    heap: Global,
    threads: &[Vec<Instruction>],
    spots: &[Spot],
) -> Result<Threads, AllocError>
    ensures { IfOk result (λ v. vec_len v ≡ length threads.now) }
{
    let mut fenced = Vec::new(heap);
    for (thread, code) in threads.iter().enumerate() {
        fenced.push(with_fences_in(heap, code.as_slice(), thread, spots)?)?;
    }
    Ok(fenced)
}
