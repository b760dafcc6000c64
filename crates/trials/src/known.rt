// Known programs, as words in text. The comments write places 0, 1 and 2 as x, y and z, and leave out the lines that put
// numbers into registers. What each needs is said where they are tried.
use std::alloc::{AllocError, Global};

// x = 1; r1 = y | y = 1; r1 = x. Both may read 0, but not at once.
pub const STORE_BUFFERING: &str = "2 3 0 0 1 0 3 0 0 0 2 1 1 0 3 0 0 1 0 3 1 0 0 2 1 0 0";

// x = 1; fence; r1 = y | y = 1; r1 = x. The second thread has yet to wait.
pub const ONE_FENCE_HAS: &str = "2 4 0 0 1 0 3 0 0 0 4 0 0 0 2 1 1 0 3 0 0 1 0 3 1 0 0 2 1 0 0";

// x = 1; r1 = y | y = 1; r1 = z | z = 1; r1 = x. All may read 0.
pub const THREE_IN_A_RING: &str =
    "3 3 0 0 1 0 3 0 0 0 2 1 1 0 3 0 0 1 0 3 1 0 0 2 1 2 0 3 0 0 1 0 3 2 0 0 2 1 0 0";

// x = 1; y = 1 | r0 = y; r1 = x. Stores go to memory in program order, and loads are done in it.
pub const MESSAGE_PASSING: &str = "2 3 0 0 1 0 3 0 0 0 3 1 0 0 2 2 0 1 0 2 1 0 0";

// r0 = x; y = 1 | r0 = y; x = 1. No store goes before an older load.
pub const LOAD_BUFFERING: &str = "2 3 2 0 0 0 0 1 1 0 3 1 1 0 3 2 0 1 0 0 1 1 0 3 0 1 0";

// x = 1; y = 2 | y = 1; x = 2. Stores alone give nothing new.
pub const TWO_AND_TWO_WRITES: &str =
    "2 4 0 0 1 0 0 1 2 0 3 0 0 0 3 1 1 0 4 0 0 1 0 0 1 2 0 3 1 0 0 3 0 1 0";

// x = 1; y = 1 | y = 2; r1 = x. At the end y may be 2 with r1 = 0.
pub const WRITE_AND_READ: &str = "2 3 0 0 1 0 3 0 0 0 3 1 0 0 3 0 0 2 0 3 1 0 0 2 1 0 0";

// x = 2; y = 1 | r0 = y; x = 1. The load keeps the second thread in order.
pub const WRITE_AND_WRITE: &str = "2 4 0 0 2 0 0 1 1 0 3 0 0 0 3 1 1 0 3 2 0 1 0 0 1 1 0 3 0 1 0";

// x = 1 | y = 1 | r0 = x; r1 = y | r0 = y; r1 = x. All threads see stores in one order.
pub const INDEPENDENT_READS: &str =
    "4 2 0 0 1 0 3 0 0 0 2 0 0 1 0 3 1 0 0 2 2 0 0 0 2 1 1 0 2 2 0 1 0 2 1 0 0";

// x = 1; r1 = x | x = 2; r1 = x. Each reads its own store or a later one.
pub const OWN_STORE_READ: &str = "2 3 0 0 1 0 3 0 0 0 2 1 0 0 3 0 0 2 0 3 0 0 0 2 1 0 0";

// x = 1; r1 = x; r2 = y | y = 2; x = 2. With r1 = 1 and r2 = 0, x may be 1 at the end: r1 had it before memory did.
pub const OWN_STORE_EARLY: &str = "2 4 0 0 1 0 3 0 0 0 2 1 0 0 2 2 1 0 3 0 0 2 0 3 1 0 0 3 0 0 0";

// x = 1; r1 = x; r2 = y | y = 1; r1 = y; r2 = x. Both read their own store, and 0 of the other.
pub const OWN_STORES_EARLY: &str =
    "2 4 0 0 1 0 3 0 0 0 2 1 0 0 2 2 1 0 4 0 0 1 0 3 1 0 0 2 1 1 0 2 2 0 0";

// x = 1; z = 1; r1 = y | y = 1; z = 1; r1 = x. A store to another place does not send the first to memory.
pub const THIRD_PLACE: &str =
    "2 4 0 0 1 0 3 0 0 0 3 2 0 0 2 1 1 0 4 0 0 1 0 3 1 0 0 3 2 0 0 2 1 0 0";

// x = 1; fence; r1 = y | y = 1; fence; r1 = x. With a fence behind every store nothing new comes out.
pub const FENCES_BEHIND_STORES: &str =
    "2 4 0 0 1 0 3 0 0 0 4 0 0 0 2 1 1 0 4 0 0 1 0 3 1 0 0 4 0 0 0 2 1 0 0";

// fence; x = 1; r1 = y | fence; y = 1; r1 = x. Where nothing waits yet a fence is of no use.
pub const FENCES_FIRST: &str =
    "2 4 4 0 0 0 0 0 1 0 3 0 0 0 2 1 1 0 4 4 0 0 0 0 0 1 0 3 1 0 0 2 1 0 0";

// x = 3; r1 = x; x = 3 + r1; r3 = y, alone. A thread sees its own stores.
pub const ONE_THREAD: &str = "1 6 0 0 3 0 3 0 0 0 2 1 0 0 1 2 0 1 3 0 2 0 2 3 1 0";

// One thread with no instruction.
pub const NOTHING: &str = "1 0";

// All of these, each with few enough reads and writes that all orders of them can be made.
pub const ALL: [&str; 17] = [
    STORE_BUFFERING,
    ONE_FENCE_HAS,
    THREE_IN_A_RING,
    MESSAGE_PASSING,
    LOAD_BUFFERING,
    TWO_AND_TWO_WRITES,
    WRITE_AND_READ,
    WRITE_AND_WRITE,
    INDEPENDENT_READS,
    OWN_STORE_READ,
    OWN_STORE_EARLY,
    OWN_STORES_EARLY,
    THIRD_PLACE,
    FENCES_BEHIND_STORES,
    FENCES_FIRST,
    ONE_THREAD,
    NOTHING,
];

// Four threads that each store register 0 to places 0 to 7. They come to 45 to the fourth states: of each thread's eight
// stores some are done, and some of these gone.
pub fn many_stores(heap: Global) -> Result<Vec<u32>, AllocError> {
    let mut words = vec![in heap; 4u32]?;
    for _ in 0..4 {
        words.push(8)?;
        for place in 0..8u32 {
            words.extend_from_slice(&[3, place, 0, 0])?;
        }
    }
    Ok(words)
}

// The words in a text.
pub fn words_in(heap: Global, text: &str) -> anyhow::Result<Vec<u32>> {
    let mut words = Vec::new(heap);
    for word in text.split_whitespace() {
        words.push(word.parse::<u32>()?)?;
    }
    Ok(words)
}
