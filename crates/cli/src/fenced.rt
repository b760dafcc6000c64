// A program with fences put in, as `look` tells them: thread and instruction for each.
use program::instructions::Instruction;
use std::alloc::{AllocError, Global};
use text::source::{Source, Thread};

// Whether a fence is told before an instruction, among thread and instruction for each fence.
fn is_fenced(fences: &[u32], n: usize, at: usize) -> bool {
    fences.chunks_exact(2).any(
        |fence| matches!(*fence, [thread, index] if thread as usize == n && index as usize == at),
    )
}

fn with_fences(
    heap: Global,
    thread: &Thread,
    n: usize,
    fences: &[u32],
) -> Result<Thread, AllocError> {
    let mut code = Vec::new(heap);
    for (at, i) in thread.code.iter().enumerate() {
        if is_fenced(fences, n, at) {
            code.push(Instruction::Fence)?;
        }
        code.push(*i)?;
    }
    Ok(Thread {
        name: thread.name.clone()?,
        code,
    })
}

// The program with its fences in, under the same names.
pub fn fenced(heap: Global, source: &Source, fences: &[u32]) -> Result<Source, AllocError> {
    let mut threads = Vec::new(heap);
    for (n, thread) in source.threads.iter().enumerate() {
        threads.push(with_fences(heap, thread, n, fences)?)?;
    }
    Ok(Source {
        threads,
        places: source.places.clone()?,
    })
}

// Whether a thread is longer than programs that are read may be.
pub fn is_too_long(source: &Source) -> bool {
    source.threads.iter().any(|thread| thread.code.len() > 8)
}
