// A table that finds records of equal width in lent words again. The records stand one after the other in one part of the
// lent words, the queue, and the table in another. What only reads the records takes the queue as a slice that may be
// shared; `Records` holds both parts and writes to them.
ghost use Rattle.std.specs.Prelude.{◌≡◌, ℕ, ◌+◌, ◌*◌, ◌^◌, ◌<◌, ◌≤◌, ◌==◌, length, drop, position, Decides, slice_index};
ghost use Rattle.lent.specs.Records.{rec};
ghost use Rattle.lent.specs.Table.{homes, places, home, Probed, Free, Stop, Found, Inserted, SomeFree, FirstFree};

use crate::hash::hash;
use crate::shape::Shape;

// How many words of the table are in use.
pub fn table_places(shape: Shape) -> usize
    ensures { result ≡ places shape }
{
    (1usize << shape.bits) + shape.room
}

// Where the probe for a key begins.
fn first_place(shape: Shape, key: &[u32]) -> usize
    ensures value { result ≡ home shape key.now }
    ensures below { result < homes shape }
{
    (hash(key) >> (64 - shape.bits)) as usize
}

// Is record i the key?
fn is_record(shape: Shape, queue: &[u32], i: usize, key: &[u32]) -> bool
    requires { (i + 1) * shape.width ≤ length queue.now }
    ensures { Decides result (rec queue.now shape.width i ≡ key.now) }
{
    let start = i * shape.width;
    &queue[start..start + shape.width] == key
}

// The place where the probe for a key ends: it tells the record that is the key, or it is free and there is none. That
// there are n records is for the contract alone.
pub fn find(shape: Shape, queue: &[u32], n: usize, table: &[u32], key: &[u32]) -> usize
    requires probed { Probed shape queue.now table.now n }
    requires room { n < shape.room }
    ensures { Stop shape queue.now table.now n key.now result }
{
    let mut at = first_place(shape, key);
    let place = 'probe: loop {
        let entry = table[at] as usize;
        if entry == 0 {
            break 'probe at;
        }
        if is_record(shape, queue, entry - 1, key) {
            break 'probe at;
        }
        at += 1;
    };
    place
}

// Makes the first places free, and leaves the others as they are.
fn clear(table: &mut [u32], count: usize)
    requires { count ≤ length table.old }
    ensures free { (p : ℕ) → p < count → slice_index table.new p ≡ 0 }
    ensures rest { drop count table.new ≡ drop count table.old }
{
    table[..count].fill(0);
}

// The first free place.
fn first_free(places: &[u32]) -> Option<usize>
    ensures { result ≡ position (λ x. x == 0) places.now }
{
    places.iter().position(|entry| *entry == 0)
}

// The first free place from one place on.
fn free_place(table: &[u32], from: usize) -> usize
    requires { SomeFree table.now from }
    ensures { FirstFree table.now from result }
{
    from + first_free(&table[from..]).unwrap()
}

// Enters record n, which stands in the queue already.
fn enter(shape: Shape, queue: &[u32], n: usize, table: &mut [u32])
    requires probed { Probed shape queue.now table.old n }
    requires room { n < shape.room }
    requires told { n + 1 < 2 ^ 32 }
    requires ends { (n + 1) * shape.width ≤ length queue.now }
    ensures probed { Probed shape queue.now table.new (n + 1) }
    ensures rest { drop (places shape) table.new ≡ drop (places shape) table.old }
{
    let start = n * shape.width;
    let from = first_place(shape, &queue[start..start + shape.width]);
    let at = free_place(table, from);
    table[at] = (n + 1) as u32;
}

// Makes the table anew for the first n records: at the start, and when it is to grow.
pub fn rebuild(shape: Shape, queue: &[u32], n: usize, table: &mut [u32])
    requires few { n ≤ shape.room }
    requires told { n < 2 ^ 32 }
    requires held { n * shape.width ≤ length queue.now }
    requires fits { places shape ≤ length table.old }
    ensures probed { Probed shape queue.now table.new n }
    ensures rest { drop (places shape) table.new ≡ drop (places shape) table.old }
{
    clear(table, table_places(shape));
    for i in 0..n {
        enter(shape, queue, i, table);
    }
}

// The first n records of the queue, and a table that finds them again. The two have a lifetime each, and no struct holds
// this one: only so is it known what the lent words hold when the records are let go. That the table finds the records
// stays a clause: it tells where each probe ends, which no ghost field can hold.
#[derive(Drop)]
pub struct Records<'q, 't> {
    pub shape: Shape,
    pub n: usize,
    pub queue: &'q mut [u32],
    pub table: &'t mut [u32],
}

impl<'q, 't> Records<'q, 't> {
    // The first n records of the queue, and a table made for them.
    pub fn new(
        shape: Shape,
        n: usize,
        queue: &'q mut [u32],
        table: &'t mut [u32],
    ) -> Records<'q, 't>
        requires few { n ≤ shape.room }
        requires told { n < 2 ^ 32 }
        requires held { n * shape.width ≤ length queue.old }
        requires fits { places shape ≤ length table.old }
        ensures probed { Probed result.shape result.queue.now result.table.now result.n }
        ensures shape { result.shape ≡ shape }
        ensures n { result.n ≡ n }
        ensures records { result.queue.now ≡ queue.old }
        ensures places { length result.table.now ≡ length table.old }
        ensures rest { drop (places shape) result.table.now ≡ drop (places shape) table.old }
        ensures queue { result.queue.ghost_name ≡ queue.entry.ghost_name }
        ensures table { result.table.ghost_name ≡ table.entry.ghost_name }
    {
        rebuild(shape, queue, n, table);
        Records {
            shape,
            n,
            queue,
            table,
        }
    }

    // The words of a record.
    pub fn record(&self, i: usize) -> &[u32]
        requires { (i + 1) * self.now.shape.width ≤ length self.now.queue.now }
        ensures { result.now ≡ rec self.now.queue.now self.now.shape.width i }
    {
        let start = i * self.shape.width;
        &self.queue[start..start + self.shape.width]
    }

    // The record that is the key, or else the free place where the probe for it ends.
    pub fn find(&self, key: &[u32]) -> Result<usize, usize>
        requires probed { Probed self.now.shape self.now.queue.now self.now.table.now self.now.n }
        requires room { self.now.n < self.now.shape.room }
        ensures { Found self.now.shape self.now.queue.now self.now.table.now self.now.n key.now result }
    {
        let place = find(self.shape, self.queue, self.n, self.table, key);
        (self.table[place] as usize).checked_sub(1).ok_or(place)
    }

    // A new key is a record more, entered at the place where `find` looked for it.
    pub fn insert(&mut self, place: usize, key: &[u32])
        requires probed { Probed self.old.shape self.old.queue.now self.old.table.now self.old.n }
        requires room { self.old.n < self.old.shape.room }
        requires told { self.old.n + 1 < 2 ^ 32 }
        requires ends { (self.old.n + 1) * self.old.shape.width ≤ length self.old.queue.now }
        requires whole { length key.now ≡ self.old.shape.width }
        requires free { Free self.old.shape self.old.queue.now self.old.table.now self.old.n key.now place }
        ensures inserted { Inserted self.old.shape self.old.queue.now self.old.table.now self.old.n key.now place self.new.queue.now self.new.table.now }
        ensures shape { self.new.shape ≡ self.old.shape }
        ensures n { self.new.n ≡ self.old.n + 1 }
        ensures words { length self.new.queue.now ≡ length self.old.queue.now }
        ensures places { length self.new.table.now ≡ length self.old.table.now }
        ensures queue { self.new.queue.ghost_name ≡ self.old.queue.ghost_name }
        ensures table { self.new.table.ghost_name ≡ self.old.table.ghost_name }
    {
        let start = self.n * self.shape.width;
        self.queue[start..start + self.shape.width].copy_from_slice(key);
        self.n += 1;
        self.table[place] = self.n as u32;
    }
}
