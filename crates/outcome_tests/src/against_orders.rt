// Outcomes by the machine against outcomes by all orders, of programs made at random.
ghost use Rattle.std.specs.Prelude.{◌<◌};

use crate::listed::{ask, width};
use fences::listing::Listing;
use generate::programs::{Limits, program_words};
use generate::random::Random;
use orders::events::Rule;
use orders::outcomes::{Outcomes, outcomes_by};
use orders::threads::threads_of;
use program::words::from_words;
use std::alloc::Global;
use std::process::Abort;
use std::test::Fail;

const LIMITS: Limits = Limits {
    threads: 3,
    events: 7,
};

// Each of the first `count` rows is one of the outcomes, and its bit says whether it is one at once.
fn same_rows(
    rt: &impl Abort,
    heap: Global,
    rows: &[u32],
    width: usize,
    count: usize,
    waiting: &Outcomes,
    once: &Outcomes,
) -> Result<(), Fail>
    requires { 0 < width }
{
    assert!(rt; count <= rows.len() / width);
    for row in rows.chunks_exact(width).take(count) {
        let (bit, outcome) = row.split_first().ok_or("an empty row")?;
        let outcome = outcome.to_vec(heap)?;
        assert!(rt; waiting.contains(&outcome));
        assert!(rt; once.contains(&outcome) == (*bit == 1));
    }
    Ok(())
}

fn agree(rt: &impl Abort, heap: Global, words: &[u32]) -> Result<(), Fail> {
    let p = from_words(words).ok_or("no program")?;
    let threads = threads_of(heap, &p)?;
    let waiting = outcomes_by(heap, Rule::Waiting, threads.as_slice())?;
    let once = outcomes_by(heap, Rule::AtOnce, threads.as_slice())?;
    let got = ask(heap, words, 4000, 700_000)?;
    let Ok(
        Listing {
            outcomes: count,
            ..
        },
    ) = got.listed
    else {
        return Err(Fail::new("no outcomes"));
    };
    assert_eq!(rt; count, waiting.len());
    same_rows(
        rt,
        heap,
        got.rows.as_slice(),
        width(threads.len()),
        count,
        &waiting,
        &once,
    )
}

#[test]
fn the_machine_gives_what_orders_give(rt: HostRuntime) -> Result<(), Fail> {
    let heap = rt.alloc();
    let mut random = Random::new(11);
    for _ in 0..300 {
        let words = program_words(heap, &mut random, LIMITS)?;
        agree(&rt, heap, words.as_slice())?;
    }
    Ok(())
}
