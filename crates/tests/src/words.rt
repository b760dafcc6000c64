// Words that are no program, and words that are one.
use program::words::{from_words, instruction_to_words, to_words};
use std::alloc::Global;
use std::process::Abort;
use std::test::Fail;

// Every instruction with its least and its greatest numbers, a row of four words each.
const EDGES: [[u32; 4]; 9] = [
    [0, 0, 0, 0],
    [0, 3, 15, 0],
    [1, 0, 0, 0],
    [1, 3, 3, 3],
    [2, 0, 0, 0],
    [2, 3, 7, 0],
    [3, 0, 0, 0],
    [3, 7, 3, 0],
    [4, 0, 0, 0],
];

// The program of one thread with one instruction.
fn alone(row: [u32; 4]) -> [u32; 6] {
    [1, 1, row[0], row[1], row[2], row[3]]
}

#[test]
fn no_program(rt: HostRuntime) {
    let refused: [&[u32]; 17] = [
        &[],
        // no thread, with nothing behind and with a thread behind
        &[0],
        &[0, 0],
        // threads that are not there
        &[1],
        &[2, 0],
        &[4, 0, 0, 0],
        // instructions that are not there, or not whole
        &[1, 1],
        &[1, 1, 4, 0, 0],
        &[1, 2, 4, 0, 0, 0],
        &[2, 0, 1, 4, 0, 0],
        // a word too many
        &[1, 0, 0],
        &[1, 1, 4, 0, 0, 0, 0],
        &[4, 0, 0, 0, 0, 0],
        // five threads
        &[5, 0, 0, 0, 0, 0],
        // as many threads or instructions as a word can tell
        &[u32::MAX, 0, 0, 0, 0],
        &[1, u32::MAX, 4, 0, 0, 0],
        // four times as many is 0 in 32 bits
        &[1, 0x4000_0000],
    ];
    for (i, words) in refused.iter().enumerate() {
        assert!(rt; from_words(words).is_none(), "case {i}");
    }
}

#[test]
fn no_instruction(rt: HostRuntime) {
    let refused = [
        // a register of 4
        [0, 4, 0, 0],
        [1, 4, 0, 0],
        [1, 0, 4, 0],
        [1, 0, 0, 4],
        [2, 4, 0, 0],
        [3, 0, 4, 0],
        // a number of 16
        [0, 0, 16, 0],
        // a place of 8
        [2, 0, 8, 0],
        [3, 8, 0, 0],
        // a word that is to be 0
        [0, 0, 0, 1],
        [2, 0, 0, 1],
        [3, 0, 0, 1],
        [4, 1, 0, 0],
        [4, 0, 1, 0],
        [4, 0, 0, 1],
        // an unknown code
        [5, 0, 0, 0],
    ];
    for row in refused {
        assert!(rt; from_words(&alone(row)).is_none(), "{row:?}");
    }
    // the greatest word in each place; by its index, since each turn changes one word of a row of its own
    for row in EDGES {
        for k in 0..4 {
            let mut large = row;
            large[k] = u32::MAX;
            assert!(rt; from_words(&alone(large)).is_none(), "{large:?}");
        }
    }
}

// The words are a program, and its words are these again.
fn check_back(rt: &impl Abort, heap: Global, words: &[u32]) -> Result<(), Fail> {
    let p = from_words(words).ok_or("refused")?;
    let back = to_words(heap, &p)?;
    assert_eq!(rt; back.as_slice(), words);
    Ok(())
}

#[test]
fn there_and_back(rt: HostRuntime) -> Result<(), Fail> {
    check_back(&rt, rt.alloc(), &[1, 0])?;
    check_back(&rt, rt.alloc(), &[3, 0, 1, 4, 0, 0, 0, 0])?;
    check_back(&rt, rt.alloc(), &alone([1, 1, 2, 3]))?;
    for row in EDGES {
        check_back(&rt, rt.alloc(), &alone(row))?;
    }
    // four threads of eight instructions, and then a word too many
    let mut words = Vec::new(rt.alloc());
    words.push(4)?;
    for _ in 0..4 {
        words.push(8)?;
        for row in &EDGES[1..] {
            words.extend_from_slice(row)?;
        }
    }
    check_back(&rt, rt.alloc(), words.as_slice())?;
    words.push(0)?;
    assert!(rt; from_words(words.as_slice()).is_none());
    // nine instructions
    let mut words = Vec::new(rt.alloc());
    words.push(1)?;
    words.push(9)?;
    for row in EDGES {
        words.extend_from_slice(&row)?;
    }
    assert!(rt; from_words(words.as_slice()).is_none());
    Ok(())
}

#[test]
fn instructions_by_number(rt: HostRuntime) -> Result<(), Fail> {
    let p = from_words(&[2, 0, 2, 0, 3, 15, 0, 3, 7, 3, 0]).ok_or("refused")?;
    let first = p.instruction(1, 0).ok_or("none")?;
    assert_eq!(rt; instruction_to_words(first), [0, 3, 15, 0]);
    let last = p.instruction(1, 1).ok_or("none")?;
    assert_eq!(rt; instruction_to_words(last), [3, 7, 3, 0]);
    for (n, pc) in [
        (0, 0),
        (1, 2),
        (1, 8),
        (2, 0),
        (1, usize::MAX),
        (usize::MAX, 0),
    ] {
        assert!(rt; p.instruction(n, pc).is_none(), "{n} {pc}");
    }
    Ok(())
}
