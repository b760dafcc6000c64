// How many words a record has, and how large the table of the records is.
ghost use Rattle.std.specs.Prelude.{◌^◌, ◌<◌, ◌≤◌};

#[derive(Clone, Copy)]
pub struct Shape {
    // the words of a record
    pub width: usize,
    // the table has 2^bits homes
    pub bits: u32,
    // how many records it has room for
    pub room: usize,
    ghost some: { 0 < bits },
    ghost few: { bits ≤ 32 },
    ghost fits: { room < 2 ^ 63 },
}
