// Runs with registers written over, and with rows of many waiting stores.
use crate::play::Turn::{Next, Out};
use crate::runs::{EIGHT_STORES, Run, check_runs};
use std::test::Fail;

const SEVEN_STORES_AND_FENCE: &[[u32; 4]] = &[
    [3, 0, 0, 0],
    [3, 0, 0, 0],
    [3, 0, 0, 0],
    [3, 0, 0, 0],
    [3, 0, 0, 0],
    [3, 0, 0, 0],
    [3, 0, 0, 0],
    [4, 0, 0, 0],
];

// 0 five times and then 9 to place 3, which is then read.
const NEWEST_OF_SIX: &[[u32; 4]] = &[
    [0, 1, 9, 0],
    [3, 3, 0, 0],
    [3, 3, 0, 0],
    [3, 3, 0, 0],
    [3, 3, 0, 0],
    [3, 3, 0, 0],
    [3, 3, 1, 0],
    [2, 2, 3, 0],
];

#[test]
fn registers_and_the_last_place(rt: HostRuntime) -> Result<(), Fail> {
    let runs = [
        // a register may be all that a sum names, and of two sums only the greater loses its 16
        Run {
            threads: &[&[
                [0, 3, 15, 0],
                [1, 3, 3, 3],
                [0, 0, 1, 0],
                [1, 2, 3, 0],
                [1, 1, 2, 0],
            ]],
            turns: &[Next(0); 5],
            made: 5,
            state: &[0, 0x5_ef01, 0, 0],
        },
        // a number put over another leaves nothing of it, and the registers beside it as they are
        Run {
            threads: &[&[
                [0, 0, 15, 0],
                [0, 1, 15, 0],
                [0, 2, 15, 0],
                [0, 3, 15, 0],
                [0, 1, 0, 0],
                [0, 2, 8, 0],
            ]],
            turns: &[Next(0); 6],
            made: 6,
            state: &[0, 0x6_f80f, 0, 0],
        },
        // the last place is read into the last register, from memory and from the store that waits
        Run {
            threads: &[
                &[[0, 0, 15, 0], [3, 7, 0, 0]],
                &[[2, 3, 7, 0], [2, 2, 6, 0]],
            ],
            turns: &[Next(0), Next(0), Out(0), Next(1), Next(1)],
            made: 5,
            state: &[0xf000_0000, 0x2_000f, 0, 0, 0x2_f000, 0, 0],
        },
        Run {
            threads: &[&[[0, 0, 15, 0], [3, 7, 0, 0], [2, 3, 7, 0], [2, 2, 6, 0]]],
            turns: &[Next(0); 4],
            made: 4,
            state: &[0, 0x14_f00f, 15, 7],
        },
    ];
    check_runs(&rt, rt.alloc(), &runs)
}

#[test]
fn long_rows(rt: HostRuntime) -> Result<(), Fail> {
    let runs = [
        // no ninth instruction is done
        Run {
            threads: &[EIGHT_STORES],
            turns: &[Next(0); 9],
            made: 8,
            state: &[0, 0x88_0000, 0, 0x7654_3210],
        },
        // a fence waits for the last of seven, and then passes
        Run {
            threads: &[SEVEN_STORES_AND_FENCE],
            turns: &[
                Next(0),
                Next(0),
                Next(0),
                Next(0),
                Next(0),
                Next(0),
                Next(0),
                Out(0),
                Out(0),
                Out(0),
                Out(0),
                Out(0),
                Out(0),
                Next(0),
            ],
            made: 13,
            state: &[0, 0x17_0000, 0, 0],
        },
        Run {
            threads: &[SEVEN_STORES_AND_FENCE],
            turns: &[
                Next(0),
                Next(0),
                Next(0),
                Next(0),
                Next(0),
                Next(0),
                Next(0),
                Out(0),
                Out(0),
                Out(0),
                Out(0),
                Out(0),
                Out(0),
                Out(0),
                Next(0),
            ],
            made: 15,
            state: &[0, 0x8_0000, 0, 0],
        },
        // the newest of a long row is read, also when the others have gone
        Run {
            threads: &[NEWEST_OF_SIX],
            turns: &[Next(0); 8],
            made: 8,
            state: &[0, 0x68_0990, 0x90_0000, 0x33_3333],
        },
        Run {
            threads: &[NEWEST_OF_SIX],
            turns: &[
                Next(0),
                Next(0),
                Next(0),
                Next(0),
                Next(0),
                Next(0),
                Next(0),
                Out(0),
                Out(0),
                Out(0),
                Out(0),
                Out(0),
                Next(0),
            ],
            made: 13,
            state: &[0, 0x18_0990, 9, 3],
        },
    ];
    check_runs(&rt, rt.alloc(), &runs)
}
