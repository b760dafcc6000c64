// Fences before first lines: nothing of a thread waits there, so that one there is of no use.
use fences::looking::{Verdict, look};
use std::alloc::Global;
use std::process::Abort;
use std::test::Fail;
use trials::known::*;

// The fewest fences of the program are these: thread and instruction of each.
fn needs(rt: &impl Abort, heap: Global, text: &str, fences: &[u32]) -> Result<(), Fail> {
    let words = words_in(heap, text)?;
    let mut work = vec![in heap; 0u32; 65_536 + 128 * 1001]?;
    let mut out = [0u32; 256];
    let looked = look(words.as_slice(), 1000, &mut out, work.as_mut_slice());
    let Ok(Verdict::Fences(moves, count)) = looked else {
        return Err(Fail::new("no fences"));
    };
    if moves > 64 || count > 32 {
        return Err(Fail::new("more than a program allows"));
    }
    assert_eq!(rt; &out[moves..moves + 2 * count], fences);
    Ok(())
}

#[test]
fn a_fence_before_a_first_line_is_of_no_use(rt: HostRuntime) -> Result<(), Fail> {
    let heap = rt.alloc();
    // were it of use, the first list would be before both first lines
    needs(&rt, heap, STORE_BUFFERING, &[0, 2, 1, 2])?;
    // those that are there already spare none, and move the instructions on by one
    needs(&rt, heap, FENCES_FIRST, &[0, 3, 1, 3])
}
