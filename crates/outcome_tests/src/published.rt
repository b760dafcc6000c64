// Known programs: how many outcomes each has with and without waiting stores; and answers at the edges.
use crate::listed::{ask, at_once};
use fences::listing::{Listing, outcomes};
use fences::refusals::Refusal;
use std::alloc::Global;
use std::process::Abort;
use std::test::Fail;
use trials::known::*;

// With waiting stores the program has so many outcomes, and so many of them at once.
fn has(rt: &impl Abort, heap: Global, text: &str, waiting: usize, once: usize) -> Result<(), Fail> {
    let words = words_in(heap, text)?;
    let got = ask(heap, words.as_slice(), 1000, 200_000)?;
    let Ok(
        Listing {
            outcomes: count,
            ..
        },
    ) = got.listed
    else {
        return Err(Fail::new("no outcomes"));
    };
    let threads = words.first().copied().unwrap_or(0) as usize;
    assert_eq!(rt; count, waiting);
    assert_eq!(rt; at_once(got.rows.as_slice(), threads, count), once);
    Ok(())
}

#[test]
fn known_programs_have_the_published_outcomes(rt: HostRuntime) -> Result<(), Fail> {
    let heap = rt.alloc();
    // both loads read 0 only where stores wait
    has(&rt, heap, STORE_BUFFERING, 4, 3)?;
    has(&rt, heap, ONE_FENCE_HAS, 4, 3)?;
    has(&rt, heap, THREE_IN_A_RING, 8, 7)?;
    // no message before its flag, no load of what is stored later, one order of stores for all readers
    has(&rt, heap, MESSAGE_PASSING, 3, 3)?;
    has(&rt, heap, LOAD_BUFFERING, 3, 3)?;
    has(&rt, heap, INDEPENDENT_READS, 15, 15)?;
    // its own store is read before it goes to memory
    has(&rt, heap, OWN_STORE_EARLY, 5, 4)?;
    has(&rt, heap, NOTHING, 1, 1)
}

#[test]
fn answers_at_the_edges(rt: HostRuntime) -> Result<(), Fail> {
    let heap = rt.alloc();
    let words = words_in(heap, STORE_BUFFERING)?;
    // one word of lent memory short, and just enough
    let short = ask(heap, words.as_slice(), 2000, 65_536 + 128 * 2001 - 1)?;
    assert!(rt; matches!(short.listed, Err(Refusal::Few)));
    let enough = ask(heap, words.as_slice(), 2000, 65_536 + 128 * 2001)?;
    assert!(rt; matches!(enough.listed, Ok(Listing { outcomes: 4, .. })));
    // exactly as many states as are allowed, and one more, which the lent memory holds too
    let all = ask(heap, words.as_slice(), 45, 65_536 + 128 * 46)?;
    assert!(rt;
        matches!(
            all.listed,
            Ok(Listing {
                outcomes: 4,
                states: 45
            })
        )
    );
    let more = ask(heap, words.as_slice(), 44, 65_536 + 128 * 45)?;
    assert!(rt;
        matches!(
            more.listed,
            Ok(Listing {
                outcomes: 4,
                states: 45
            })
        )
    );
    assert!(rt;
        matches!(
            ask(heap, &[2, 9], 10, 100_000)?.listed,
            Err(Refusal::NoProgram)
        )
    );
    // one word of out short, and just enough: 4 rows of 17 words
    let mut work = vec![in heap; 0u32; 100_000]?;
    let mut out = [5u32; 68];
    assert!(rt;
        matches!(
            outcomes(words.as_slice(), 100, &mut out[0..67], work.as_mut_slice()),
            Err(Refusal::OutFull)
        )
    );
    assert!(rt; out == [5u32; 68]);
    assert!(rt;
        matches!(
            outcomes(words.as_slice(), 100, &mut out[0..68], work.as_mut_slice()),
            Ok(Listing { outcomes: 4, .. })
        )
    );
    Ok(())
}

// Four threads that each store register 0 to places 0 to 7 come to 45 to the fourth states.
#[test]
fn too_many_states_are_crowded(rt: HostRuntime) -> Result<(), Fail> {
    let heap = rt.alloc();
    let words = many_stores(heap)?;
    assert!(rt;
        matches!(
            ask(heap, words.as_slice(), 2000, 65_536 + 128 * 2001)?.listed,
            Err(Refusal::Crowded)
        )
    );
    Ok(())
}
