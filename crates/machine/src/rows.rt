// A thread's row of waiting stores, the oldest first: eight places of an array, from `begin` on so many. A store that
// has gone leaves its place unused, since a thread does at most eight stores in all.
ghost use Rattle.std.specs.Prelude.{◌≡◌, ◌+◌, ◌≤◌, length};
ghost use Rattle.machine.specs.Stores.{AllSmall};

use crate::stores::Store;

#[derive(Clone, Copy)]
pub struct Row {
    pub items: [Store; 8],
    pub begin: usize,
    pub len: usize,
    ghost eight: { length items ≡ 8 },
    ghost room: { begin + len ≤ 8 },
    ghost small: { AllSmall items },
}
