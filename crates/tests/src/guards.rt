// Runs under guards: a guarded instruction is done only if nothing of its thread waits.
use crate::play::Turn::{Guarded, Next, Out};
use crate::runs::{Run, STORE_BUFFERING, check_runs};
use std::test::Fail;

const BOTH_READ_0: &[u32] = &[0x11, 0x3_0001, 0, 0, 0x3_0001, 0, 0];

#[test]
fn guarded_instructions(rt: HostRuntime) -> Result<(), Fail> {
    let runs = [
        // while a store of its thread waits, a guarded instruction is not done, whatever it is
        Run {
            threads: STORE_BUFFERING,
            turns: &[Next(0), Next(0), Guarded(0, true)],
            made: 2,
            state: &[0, 0x12_0001, 1, 0, 0, 0, 0],
        },
        Run {
            threads: &[&[[3, 0, 0, 0], [0, 3, 15, 0]]],
            turns: &[Next(0), Guarded(0, true)],
            made: 1,
            state: &[0, 0x11_0000, 0, 0],
        },
        Run {
            threads: &[&[[3, 0, 0, 0], [3, 7, 0, 0]]],
            turns: &[Next(0), Guarded(0, true)],
            made: 1,
            state: &[0, 0x11_0000, 0, 0],
        },
        // one that is not guarded is done
        Run {
            threads: STORE_BUFFERING,
            turns: &[Next(0), Next(0), Guarded(0, false)],
            made: 3,
            state: &[0, 0x13_0001, 1, 0, 0, 0, 0],
        },
        // a guarded one is done when the store has gone
        Run {
            threads: STORE_BUFFERING,
            turns: &[Next(0), Next(0), Out(0), Guarded(0, true)],
            made: 4,
            state: &[1, 0x3_0001, 0, 0, 0, 0, 0],
        },
        // it waits for no other thread's store
        Run {
            threads: STORE_BUFFERING,
            turns: &[Next(0), Next(0), Next(1), Guarded(1, true)],
            made: 4,
            state: &[0, 0x12_0001, 1, 0, 0x12_0001, 1, 1],
        },
        // behind the last instruction nothing is done, guarded or not
        Run {
            threads: &[&[[4, 0, 0, 0]]],
            turns: &[Guarded(0, true), Guarded(0, true)],
            made: 1,
            state: &[0, 0x1_0000, 0, 0],
        },
        Run {
            threads: &[&[]],
            turns: &[Guarded(0, false)],
            made: 0,
            state: &[0, 0, 0, 0],
        },
        // a fence waits with or without a guard
        Run {
            threads: &[&[[3, 0, 0, 0], [4, 0, 0, 0]]],
            turns: &[Next(0), Guarded(0, false)],
            made: 1,
            state: &[0, 0x11_0000, 0, 0],
        },
        // the last thread, after eight stores to the last place
        Run {
            threads: &[&[], &[], &[], &[[3, 7, 0, 0]; 8]],
            turns: &[
                Next(3),
                Next(3),
                Next(3),
                Next(3),
                Next(3),
                Next(3),
                Next(3),
                Guarded(3, true),
            ],
            made: 7,
            state: &[0, 0, 0, 0, 0, 0, 0, 0, 0, 0, 0x77_0000, 0, 0x777_7777],
        },
    ];
    check_runs(&rt, rt.alloc(), &runs)
}

// Nothing of a thread waits before its first instruction, so that a guard there, as a fence there, forbids nothing: both
// threads still read 0.
#[test]
fn first_instructions_guarded_in_vain(rt: HostRuntime) -> Result<(), Fail> {
    let runs = [
        Run {
            threads: STORE_BUFFERING,
            turns: &[
                Guarded(0, true),
                Next(0),
                Guarded(1, true),
                Next(1),
                Next(0),
                Next(1),
                Out(0),
                Out(1),
            ],
            made: 8,
            state: BOTH_READ_0,
        },
        // where a store is the first instruction
        Run {
            threads: &[&[[3, 0, 0, 0]], &[[3, 1, 0, 0]]],
            turns: &[Guarded(0, true), Guarded(1, true)],
            made: 2,
            state: &[0, 0x11_0000, 0, 0, 0x11_0000, 0, 1],
        },
        // a guard before the second one of each thread is in vain too, and before the third it is not
        Run {
            threads: STORE_BUFFERING,
            turns: &[
                Next(0),
                Guarded(0, true),
                Next(1),
                Guarded(1, true),
                Next(0),
                Next(1),
                Out(0),
                Out(1),
            ],
            made: 8,
            state: BOTH_READ_0,
        },
        Run {
            threads: STORE_BUFFERING,
            turns: &[
                Next(0),
                Next(0),
                Next(1),
                Next(1),
                Guarded(0, true),
                Guarded(1, true),
                Out(0),
                Out(1),
            ],
            made: 4,
            state: &[0, 0x12_0001, 1, 0, 0x12_0001, 1, 1],
        },
    ];
    check_runs(&rt, rt.alloc(), &runs)
}
