// Runs at once: a store goes to memory in the step that does it.
use crate::play::Turn::{AtOnce, Next};
use crate::runs::{Run, STORE_BUFFERING, check_runs};
use std::test::Fail;

const STORE_AND_LOAD: &[[u32; 4]] = &[[0, 0, 5, 0], [3, 2, 0, 0], [2, 1, 2, 0]];

#[test]
fn at_once(rt: HostRuntime) -> Result<(), Fail> {
    let runs = [
        // nothing is done behind the last instruction
        Run {
            threads: &[&[]],
            turns: &[AtOnce(0)],
            made: 0,
            state: &[0, 0, 0, 0],
        },
        Run {
            threads: &[&[[4, 0, 0, 0]]],
            turns: &[AtOnce(0), AtOnce(0)],
            made: 1,
            state: &[0, 0x1_0000, 0, 0],
        },
        // the store is in memory, where it is read, and nothing waits
        Run {
            threads: &[STORE_AND_LOAD],
            turns: &[AtOnce(0), AtOnce(0)],
            made: 2,
            state: &[0x500, 0x2_0005, 0, 0],
        },
        Run {
            threads: &[STORE_AND_LOAD],
            turns: &[AtOnce(0), AtOnce(0), AtOnce(0)],
            made: 3,
            state: &[0x500, 0x3_0055, 0, 0],
        },
        // another thread reads it in the next step
        Run {
            threads: &[STORE_AND_LOAD, &[[2, 0, 2, 0]]],
            turns: &[AtOnce(0), AtOnce(0), AtOnce(1)],
            made: 3,
            state: &[0x500, 0x2_0005, 0, 0, 0x1_0005, 0, 0],
        },
        // the last thread, the last register, the last place, a sum
        Run {
            threads: &[
                &[],
                &[],
                &[],
                &[[0, 3, 15, 0], [3, 7, 3, 0], [2, 0, 7, 0], [1, 1, 0, 3]],
            ],
            turns: &[AtOnce(3); 5],
            made: 4,
            state: &[0xf000_0000, 0, 0, 0, 0, 0, 0, 0, 0, 0, 0x4_f0ef, 0, 0],
        },
        // eight instructions, seven of them stores
        Run {
            threads: &[&[
                [0, 0, 15, 0],
                [3, 1, 0, 0],
                [3, 2, 0, 0],
                [3, 3, 0, 0],
                [3, 4, 0, 0],
                [3, 5, 0, 0],
                [3, 6, 0, 0],
                [3, 7, 0, 0],
            ]],
            turns: &[AtOnce(0); 9],
            made: 8,
            state: &[0xffff_fff0, 0x8_000f, 0, 0],
        },
        // one of two threads that each store 1 and then read where the other stored reads 1: here both
        Run {
            threads: STORE_BUFFERING,
            turns: &[
                AtOnce(0),
                AtOnce(1),
                AtOnce(0),
                AtOnce(1),
                AtOnce(0),
                AtOnce(1),
            ],
            made: 6,
            state: &[0x11, 0x3_0011, 0, 0, 0x3_0011, 0, 0],
        },
        // where a store waits already, it is the one that goes, and the new one waits; no run at once comes there
        Run {
            threads: &[&[[0, 0, 1, 0], [3, 0, 0, 0], [0, 0, 2, 0], [3, 1, 0, 0]]],
            turns: &[Next(0), Next(0), AtOnce(0), AtOnce(0)],
            made: 4,
            state: &[1, 0x14_0002, 2, 1],
        },
        // and a fence waits for it
        Run {
            threads: &[&[[0, 0, 1, 0], [3, 0, 0, 0], [4, 0, 0, 0]]],
            turns: &[Next(0), Next(0), AtOnce(0)],
            made: 2,
            state: &[0, 0x12_0001, 1, 0],
        },
    ];
    check_runs(&rt, rt.alloc(), &runs)
}
