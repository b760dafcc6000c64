// The programs that are tried, in columns: `look` is asked of them as they are read, and their fences are put in as text.
use std::alloc::Global;
use text::faults::Fault;
use text::reading::parse;
use text::words::to_words;

// The words of a program in columns.
pub(crate) fn words_of(heap: Global, text: &str) -> Result<Vec<u32>, Fault> {
    Ok(to_words(heap, &parse(heap, text)?)?)
}

pub const STORE_BUFFERING: &str = "up | down
r0 = 1 | r0 = 1
[a] = r0 | [b] = r0
r1 = [b] | r1 = [a]";

pub const FENCES_BEHIND_STORES: &str = "up | down
r0 = 1 | r0 = 1
[a] = r0 | [b] = r0
fence | fence
r1 = [b] | r1 = [a]";

pub const FENCES_FIRST: &str = "up | down
fence | fence
r0 = 1 | r0 = 1
[a] = r0 | [b] = r0
r1 = [b] | r1 = [a]";

pub const THIRD_PLACE: &str = "up | down
r0 = 1 | r0 = 1
[a] = r0 | [b] = r0
[c] = r0 | [c] = r0
r1 = [b] | r1 = [a]";

pub const OWN_READ: &str = "up | down
r0 = 1 | r0 = 1
[a] = r0 | [b] = r0
r2 = [a] | r2 = [b]
r1 = [b] | r1 = [a]";

pub const BOTH_WRITE_BOTH: &str = "up | down
r0 = 1 | r0 = 1
[a] = r0 | [b] = r0
[b] = r0 | [a] = r0";

pub const RING_OF_THREE: &str = "first | second | third
r0 = 1 | r0 = 1 | r0 = 1
[a] = r0 | [b] = r0 | [c] = r0
r1 = [b] | r1 = [c] | r1 = [a]";

pub const N6: &str = "first | second
r0 = 1 | r0 = 2
[x] = r0 | [y] = r0
r1 = [x] | [x] = r0
r2 = [y]";

pub const ONE_THREAD: &str = "alone
r0 = 3
[a] = r0
r1 = [b]";

// Four threads that each write register 0 to places 0 to 7: 45 to the fourth states.
pub const CROWDED: &str = "first | second | third | fourth
[0] = r0 | [0] = r0 | [0] = r0 | [0] = r0
[1] = r0 | [1] = r0 | [1] = r0 | [1] = r0
[2] = r0 | [2] = r0 | [2] = r0 | [2] = r0
[3] = r0 | [3] = r0 | [3] = r0 | [3] = r0
[4] = r0 | [4] = r0 | [4] = r0 | [4] = r0
[5] = r0 | [5] = r0 | [5] = r0 | [5] = r0
[6] = r0 | [6] = r0 | [6] = r0 | [6] = r0
[7] = r0 | [7] = r0 | [7] = r0 | [7] = r0";
