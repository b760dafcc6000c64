// Runs to try, and what each must come to.
use crate::play::{Turn, play};
use program::words::from_words;
use std::alloc::Global;
use std::process::Abort;
use std::test::Fail;

// A program as rows of four words, moves, how many of them can be made, and the state after these: memory's word, and
// three words for each thread. In hexadecimal the digits of memory's word are the places, place 0 the last. The last
// four digits of a thread's first word are its registers, register 0 the last; before them stand which instruction is
// next and how many stores wait. The digits of its other words are the numbers and the places of the stores that wait,
// the oldest the last.
#[derive(Clone, Copy)]
pub struct Run<'a> {
    pub threads: &'a [&'a [[u32; 4]]],
    pub turns: &'a [Turn],
    pub made: usize,
    pub state: &'a [u32],
}

pub const EIGHT_STORES: &[[u32; 4]] = &[
    [3, 0, 0, 0],
    [3, 1, 0, 0],
    [3, 2, 0, 0],
    [3, 3, 0, 0],
    [3, 4, 0, 0],
    [3, 5, 0, 0],
    [3, 6, 0, 0],
    [3, 7, 0, 0],
];

// Each thread stores 1 and then reads where the other stored.
pub const STORE_BUFFERING: &[&[[u32; 4]]] = &[
    &[[0, 0, 1, 0], [3, 0, 0, 0], [2, 1, 1, 0]],
    &[[0, 0, 1, 0], [3, 1, 0, 0], [2, 1, 0, 0]],
];

fn words_of(heap: Global, threads: &[&[[u32; 4]]]) -> Result<Vec<u32>, Fail> {
    let mut words = Vec::new(heap);
    words.push(u32::try_from(threads.len())?)?;
    for thread in threads {
        words.push(u32::try_from(thread.len())?)?;
        for row in *thread {
            words.extend_from_slice(row)?;
        }
    }
    Ok(words)
}

fn check_run(rt: &impl Abort, heap: Global, i: usize, run: Run<'_>) -> Result<(), Fail> {
    let words = words_of(heap, run.threads)?;
    let p = from_words(words.as_slice()).ok_or("refused")?;
    let width = 1 + 3 * p.count();
    let mut first = [0; 13];
    let mut second = [0; 13];
    let state = &mut first[0..width];
    let made = play(&p, run.turns, state, &mut second[0..width]);
    assert_eq!(rt; made, run.made, "run {i}");
    assert_eq!(rt; &*state, run.state, "run {i}");
    Ok(())
}

pub fn check_runs(rt: &impl Abort, heap: Global, runs: &[Run<'_>]) -> Result<(), Fail> {
    for (i, run) in runs.iter().enumerate() {
        check_run(rt, heap, i, *run)?;
    }
    Ok(())
}
