// Known programs with the fences that each needs; and programs made at random, of which enough must need some.
use crate::known::*;
use generate::programs::{Limits, program_words};
use generate::random::Random;
use generate::words::damaged;
use orders::events::Rule;
use orders::fewest::fewest_fences;
use orders::outcomes::{is_plain, outcomes_by};
use orders::threads::{Spot, Threads, threads_of};
use program::words::from_words;
use std::alloc::Global;
use std::process::Abort;
use std::test::Fail;

const LIMITS: Limits = Limits {
    threads: 3,
    events: 8,
};

fn read(heap: Global, words: &[u32]) -> Result<Threads, Fail> {
    let p = from_words(words).ok_or("no program")?;
    Ok(threads_of(heap, &p)?)
}

fn fences_of(heap: Global, threads: &Threads) -> Result<Vec<Spot>, Fail> {
    let found = fewest_fences(heap, threads.as_slice())?.ok_or("no list works")?;
    Ok(found.spots)
}

// The program needs these fences.
fn needs(rt: &impl Abort, heap: Global, text: &str, fences: &[Spot]) -> Result<(), Fail> {
    let words = words_in(heap, text)?;
    let threads = read(heap, words.as_slice())?;
    assert!(rt; is_plain(heap, threads.as_slice())? == fences.is_empty());
    let found = fences_of(heap, &threads)?;
    assert!(rt; found.as_slice() == fences);
    Ok(())
}

fn before(thread: usize, index: usize) -> Spot {
    Spot { thread, index }
}

#[test]
fn loads_that_pass_stores_need_fences(rt: HostRuntime) -> Result<(), Fail> {
    let heap = rt.alloc();
    needs(&rt, heap, STORE_BUFFERING, &[before(0, 2), before(1, 2)])?;
    needs(&rt, heap, ONE_FENCE_HAS, &[before(1, 2)])?;
    needs(
        &rt,
        heap,
        THREE_IN_A_RING,
        &[before(0, 2), before(1, 2), before(2, 2)],
    )?;
    needs(&rt, heap, WRITE_AND_READ, &[before(1, 2)])
}

#[test]
fn other_pairs_need_none(rt: HostRuntime) -> Result<(), Fail> {
    let heap = rt.alloc();
    needs(&rt, heap, MESSAGE_PASSING, &[])?;
    needs(&rt, heap, LOAD_BUFFERING, &[])?;
    needs(&rt, heap, TWO_AND_TWO_WRITES, &[])?;
    needs(&rt, heap, WRITE_AND_WRITE, &[])?;
    needs(&rt, heap, INDEPENDENT_READS, &[])?;
    needs(&rt, heap, NOTHING, &[])
}

#[test]
fn fences_help_where_stores_wait(rt: HostRuntime) -> Result<(), Fail> {
    let heap = rt.alloc();
    // the store to the third place may wait, and a fence before it comes first
    needs(&rt, heap, THIRD_PLACE, &[before(0, 2), before(1, 2)])?;
    needs(&rt, heap, FENCES_FIRST, &[before(0, 3), before(1, 3)])?;
    needs(&rt, heap, FENCES_BEHIND_STORES, &[])?;
    needs(&rt, heap, ONE_THREAD, &[])
}

#[test]
fn own_stores_are_read_early(rt: HostRuntime) -> Result<(), Fail> {
    let heap = rt.alloc();
    needs(&rt, heap, OWN_STORE_READ, &[])?;
    needs(&rt, heap, OWN_STORE_EARLY, &[before(0, 2)])?;
    needs(&rt, heap, OWN_STORES_EARLY, &[before(0, 2), before(1, 2)])
}

#[test]
fn both_read_nothing_only_with_waiting(rt: HostRuntime) -> Result<(), Fail> {
    let heap = rt.alloc();
    let words = words_in(heap, STORE_BUFFERING)?;
    let threads = read(heap, words.as_slice())?;
    let waiting = outcomes_by(heap, Rule::Waiting, threads.as_slice())?;
    let at_once = outcomes_by(heap, Rule::AtOnce, threads.as_slice())?;
    let both = vec![in heap; 1, 0, 0, 0, 1, 0, 0, 0, 1, 1, 0, 0, 0, 0, 0, 0]?;
    assert!(rt; waiting.contains(&both) && !at_once.contains(&both));
    assert!(rt; waiting.len() == 4 && at_once.len() == 3);
    Ok(())
}

// How many fences a program made at random needs.
fn fences_needed(heap: Global, random: &mut Random) -> Result<usize, Fail> {
    let words = program_words(heap, random, LIMITS)?;
    let threads = read(heap, words.as_slice())?;
    let found = fences_of(heap, &threads)?;
    Ok(found.len())
}

#[test]
fn programs_made_at_random_need_some(rt: HostRuntime) -> Result<(), Fail> {
    let mut random = Random::new(1);
    // by how many fences they need, the last for four and more
    let mut programs = [0u32; 5];
    for _ in 0..300 {
        let fences = fences_needed(rt.alloc(), &mut random)?.min(4);
        programs[fences] = programs[fences].saturating_add(1);
    }
    assert!(rt; programs[0] < 200 && programs[1] > 9 && programs[2] > 9 && programs[3] > 9);
    Ok(())
}

#[test]
fn damaged_words_are_mostly_no_program(rt: HostRuntime) -> Result<(), Fail> {
    let heap = rt.alloc();
    let mut random = Random::new(1);
    let mut refused = 0u32;
    for _ in 0..300 {
        let words = program_words(heap, &mut random, LIMITS)?;
        let other = damaged(heap, &mut random, words.as_slice())?;
        if from_words(other.as_slice()).is_none() {
            refused = refused.saturating_add(1);
        }
    }
    assert!(rt; refused > 250 && refused < 300);
    Ok(())
}
