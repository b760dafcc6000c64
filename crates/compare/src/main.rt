// compare [COUNT SEED]: asks both answers, by states (the calls `look` and `outcomes`) and by orders, of all worked programs, of
// COUNT programs made at random of up to three threads, and of each of these with one word damaged. Compares what is no
// program, the outcomes with and without waiting stores, plain or not, and the fewest fences; and replays the told runs
// as orders. Prints every difference in full, and counts by kind.
#![tactic(auto)]

mod answers;
mod by_orders;
mod by_states;
mod differences;
mod kinds;
mod runs;

use crate::by_states::lent;
use crate::kinds::{Counts, Kind};
use anyhow::anyhow;
use cli::lending::Lent;
use differences::compare;
use generate::programs::{Limits, program_words};
use generate::random::Random;
use generate::words::damaged;
use std::env;
use trials::known::{ALL, many_stores, words_in};

// All orders can be made only of few reads and writes: of nine, with all lists of fences, in a few milliseconds.
const LIMITS: Limits = Limits {
    threads: 3,
    events: 9,
};

#[derive(Clone, Copy)]
struct Request {
    count: u64,
    seed: u64,
}

fn asked(rt: &HostRuntime) -> anyhow::Result<Request> {
    let mut numbers = Vec::new(rt.alloc());
    for argument in env::args(rt)?.skip(1) {
        numbers.push(argument.as_str().parse::<u64>()?)?;
    }
    match *numbers.as_slice() {
        [] => Ok(Request {
            count: 2000,
            seed: 1,
        }),
        [count, seed] => Ok(Request { count, seed }),
        _ => Err(anyhow!("usage: compare [COUNT SEED]")),
    }
}

// The programs worked by hand, and one of too many states.
fn compare_worked(rt: &HostRuntime, lent: &mut Lent) -> anyhow::Result<Counts> {
    let heap = rt.alloc();
    let mut worked = Counts::new();
    for text in ALL {
        let words = words_in(heap, text)?;
        compare(rt, lent, words.as_slice(), &mut worked)?;
    }
    let words = many_stores(heap)?;
    compare(rt, lent, words.as_slice(), &mut worked)?;
    Ok(worked)
}

// Programs made at random, and each once more with one word damaged.
fn compare_random(
    rt: &HostRuntime,
    lent: &mut Lent,
    request: Request,
) -> anyhow::Result<(Counts, Counts)> {
    let heap = rt.alloc();
    let mut made = Counts::new();
    let mut broken = Counts::new();
    let mut random = Random::new(request.seed);
    for _ in 0..request.count {
        let words = program_words(heap, &mut random, LIMITS)?;
        compare(rt, lent, words.as_slice(), &mut made)?;
        let words = damaged(heap, &mut random, words.as_slice())?;
        compare(rt, lent, words.as_slice(), &mut broken)?;
    }
    Ok((made, broken))
}

fn run(rt: &HostRuntime) -> anyhow::Result<()> {
    let request = asked(rt)?;
    let Request { count, seed } = request;
    println!(rt; "{count} programs made at random, seed {seed}")?;
    let mut lent = lent(rt.alloc())?;
    let worked = compare_worked(rt, &mut lent)?;
    let (made, broken) = compare_random(rt, &mut lent, request)?;
    kinds::print(rt, &worked, &made, &broken)?;
    let all = [&worked, &made, &broken];
    if all.iter().any(|counts| counts.of(Kind::Differences) > 0) {
        return Err(anyhow!("there are differences"));
    }
    Ok(())
}

fn main(rt: HostRuntime) -> anyhow::Result<()> {
    run(&rt)
}
