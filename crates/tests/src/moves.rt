// Runs of the machine. Each tells the right outcome from the one that a wrong machine would come to.
use crate::play::Turn;
use crate::play::Turn::{Next, Out};
use crate::runs::{EIGHT_STORES, Run, STORE_BUFFERING, check_runs};
use std::test::Fail;

// Eight instructions, and then eight stores going.
const EIGHT_AND_EIGHT: &[Turn] = &[
    Next(0),
    Next(0),
    Next(0),
    Next(0),
    Next(0),
    Next(0),
    Next(0),
    Next(0),
    Out(0),
    Out(0),
    Out(0),
    Out(0),
    Out(0),
    Out(0),
    Out(0),
    Out(0),
];

const SEVEN_STORES_OF_15: &[[u32; 4]] = &[
    [0, 0, 15, 0],
    [3, 1, 0, 0],
    [3, 2, 0, 0],
    [3, 3, 0, 0],
    [3, 4, 0, 0],
    [3, 5, 0, 0],
    [3, 6, 0, 0],
    [3, 7, 0, 0],
];

// 1 and then 2 to place 0, which is then read.
const TWO_STORES: &[[u32; 4]] = &[
    [0, 0, 1, 0],
    [3, 0, 0, 0],
    [0, 0, 2, 0],
    [3, 0, 0, 0],
    [2, 1, 0, 0],
];

const STORE_AND_FENCE: &[[u32; 4]] = &[[0, 0, 1, 0], [3, 0, 0, 0], [4, 0, 0, 0]];

#[test]
fn edges(rt: HostRuntime) -> Result<(), Fail> {
    let runs = [
        // a thread does no more than it has to do, and lets no store go where none waits
        Run {
            threads: &[&[]],
            turns: &[Next(0)],
            made: 0,
            state: &[0, 0, 0, 0],
        },
        Run {
            threads: &[&[[4, 0, 0, 0]]],
            turns: &[Next(0), Out(0)],
            made: 1,
            state: &[0, 0x1_0000, 0, 0],
        },
        // 15 + 15 is 14
        Run {
            threads: &[&[[0, 0, 15, 0], [0, 1, 15, 0], [1, 3, 0, 1]]],
            turns: &[Next(0), Next(0), Next(0), Next(0)],
            made: 3,
            state: &[0, 0x3_e0ff, 0, 0],
        },
        // the last thread, the last register, the last place
        Run {
            threads: &[&[], &[], &[], &[[0, 3, 15, 0], [3, 7, 3, 0], [2, 0, 7, 0]]],
            turns: &[Next(3), Next(3), Out(3), Next(3)],
            made: 4,
            state: &[0xf000_0000, 0, 0, 0, 0, 0, 0, 0, 0, 0, 0x3_f00f, 0, 0],
        },
        // eight stores wait, and then none
        Run {
            threads: &[EIGHT_STORES],
            turns: &[Next(0); 8],
            made: 8,
            state: &[0, 0x88_0000, 0, 0x7654_3210],
        },
        Run {
            threads: &[EIGHT_STORES],
            turns: EIGHT_AND_EIGHT,
            made: 16,
            state: &[0, 0x8_0000, 0, 0],
        },
        Run {
            threads: &[SEVEN_STORES_OF_15],
            turns: &[Next(0); 8],
            made: 8,
            state: &[0, 0x78_000f, 0xfff_ffff, 0x765_4321],
        },
        Run {
            threads: &[SEVEN_STORES_OF_15],
            turns: EIGHT_AND_EIGHT,
            made: 15,
            state: &[0xffff_fff0, 0x8_000f, 0, 0],
        },
    ];
    check_runs(&rt, rt.alloc(), &runs)
}

#[test]
fn waiting_stores(rt: HostRuntime) -> Result<(), Fail> {
    let runs = [
        // a thread sees its own store that waits: 5, and not memory's 0
        Run {
            threads: &[&[[0, 0, 5, 0], [3, 2, 0, 0], [2, 1, 2, 0]]],
            turns: &[Next(0), Next(0), Next(0)],
            made: 3,
            state: &[0, 0x13_0055, 5, 2],
        },
        // of two it sees the newer one: 2, and not 1
        Run {
            threads: &[TWO_STORES],
            turns: &[Next(0), Next(0), Next(0), Next(0), Next(0)],
            made: 5,
            state: &[0, 0x25_0022, 0x21, 0],
        },
        // the older one goes first, so that memory holds 1, and then 2
        Run {
            threads: &[TWO_STORES],
            turns: &[Next(0), Next(0), Next(0), Next(0), Out(0)],
            made: 5,
            state: &[1, 0x14_0002, 2, 0],
        },
        Run {
            threads: &[TWO_STORES],
            turns: &[Next(0), Next(0), Next(0), Next(0), Out(0), Out(0)],
            made: 6,
            state: &[2, 0x4_0002, 0, 0],
        },
        // a store of the number 1 to place 0 is none to place 1, where 0 is read
        Run {
            threads: &[&[[0, 0, 1, 0], [3, 0, 0, 0], [2, 1, 1, 0]]],
            turns: &[Next(0), Next(0), Next(0)],
            made: 3,
            state: &[0, 0x13_0001, 1, 0],
        },
        // a fence waits for its thread's store, passes when it has gone, and waits for no other thread's
        Run {
            threads: &[STORE_AND_FENCE],
            turns: &[Next(0), Next(0), Next(0)],
            made: 2,
            state: &[0, 0x12_0001, 1, 0],
        },
        Run {
            threads: &[STORE_AND_FENCE],
            turns: &[Next(0), Next(0), Out(0), Next(0)],
            made: 4,
            state: &[1, 0x3_0001, 0, 0],
        },
        Run {
            threads: &[STORE_AND_FENCE, &[[4, 0, 0, 0]]],
            turns: &[Next(0), Next(0), Next(1)],
            made: 3,
            state: &[0, 0x12_0001, 1, 0, 0x1_0000, 0, 0],
        },
        // another thread sees a store only when it has gone to memory
        Run {
            threads: &[STORE_AND_FENCE, &[[2, 0, 0, 0], [2, 1, 0, 0]]],
            turns: &[Next(0), Next(0), Next(1), Out(0), Next(1)],
            made: 5,
            state: &[1, 0x2_0001, 0, 0, 0x2_0010, 0, 0],
        },
        // so two threads can both store 1 and then both read 0 where the other stored
        Run {
            threads: STORE_BUFFERING,
            turns: &[
                Next(0),
                Next(1),
                Next(0),
                Next(1),
                Next(0),
                Next(1),
                Out(0),
                Out(1),
            ],
            made: 8,
            state: &[0x11, 0x3_0001, 0, 0, 0x3_0001, 0, 0],
        },
    ];
    check_runs(&rt, rt.alloc(), &runs)
}
