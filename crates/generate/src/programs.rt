// Programs made at random, as words.
//
// Programs with no bias are nearly all plain, so most are made from a known shape, a ring: each thread has one access to a
// place of its own and one to the place of the next thread, and the last thread's next is the first. The first access is
// mostly a store and the second mostly a load, which is store buffering; the others give message passing, load buffering
// and the like. A ring of few threads may go round twice, the second time over other places. The places of a ring are
// any of the eight.
//
// Each thread begins with a number above 0 in one register, which it mostly stores; it loads into two others, and the
// lines that read and write nothing mostly use the fourth, so that what was loaded is still seen at the end. Some threads
// are not in the ring: they are empty, or have a few loads and stores of the ring's places. Some programs have no ring.
// To every thread lines are added anywhere: numbers, sums, fences, more loads and stores, loads of what the thread itself
// stores; a line may be left out; and some threads are filled up to eight instructions.
//
// All orders can be made only of few reads and writes, so their number is bounded for the whole program, and the number of
// instructions is not.
ghost use Rattle.std.specs.Prelude.{◌≡◌, ◌+◌, ◌<◌, ◌≤◌, min, length, IfOk, vec_len, OnOk};

use crate::random::Random;
use program::instructions::{Instruction, Place, Register};
use program::words::push_code;
use std::alloc::{AllocError, Global};

// At most so many threads, one to four, and so many reads and writes in all.
#[derive(Clone, Copy)]
pub struct Limits {
    pub threads: u32,
    pub events: u32,
}

// A program that is being made: how many threads are in the ring, whether it goes round twice, which places it has, and
// how many reads and writes may still be added.
#[derive(Clone, Copy)]
struct Plan {
    ring: u32,
    twice: bool,
    start: u32,
    stride: u32,
    spare: u32,
}

impl Plan {
    // The i-th place of the ring. The stride is odd, so that eight in a row differ.
    fn place(&self, i: u32) -> Place {
        Place(self.start.wrapping_add(self.stride.wrapping_mul(i)) % 8)
    }
}

fn some_register(random: &mut Random) -> Register {
    Register(random.below(4))
}

// The register that stands so many behind this one, the last before the first.
fn behind(register: Register, by: u32) -> Register {
    Register(register.0.wrapping_add(by) % 4)
}

fn number(random: &mut Random, register: Register) -> Instruction {
    Instruction::Set(register, 1 + random.below(15))
}

// A thread that is being made, and the register of its with a number above 0.
#[derive(Drop)]
struct Draft<'a> {
    random: &'a mut Random,
    plan: &'a mut Plan,
    full: Register,
    code: Vec<Instruction>,
    ghost few: { vec_len code ≤ 8 },
}

impl<'a> Draft<'a> {
    // A thread whose first line puts a number into a register.
    fn new(
        heap: Global,
        random: &'a mut Random,
        plan: &'a mut Plan,
    ) -> Result<Draft<'a>, AllocError> {
        let full = some_register(random);
        let code = vec![in heap; number(random, full)]?;
        Ok(Draft {
            random,
            plan,
            full,
            code,
        })
    }

    // One of the three first places of the ring, and now and then another.
    fn some_place(&mut self) -> Place
        ensures { vec_len self.new.code ≡ vec_len self.old.code }
    {
        let i = if self.random.one_in(12) {
            self.random.below(8)
        } else {
            self.random.below(3)
        };
        self.plan.place(i)
    }

    // A store, mostly of the register that has a number above 0.
    fn store(&mut self, place: Place) -> Instruction
        ensures { vec_len self.new.code ≡ vec_len self.old.code }
    {
        if self.random.one_in(16) {
            return Instruction::Store(place, some_register(self.random));
        }
        Instruction::Store(place, self.full)
    }

    // A load into one of the two registers for it.
    fn load(&mut self, place: Place) -> Instruction
        ensures { vec_len self.new.code ≡ vec_len self.old.code }
    {
        Instruction::Load(behind(self.full, 1 + self.random.below(2)), place)
    }

    // The place of the thread's first store, or any.
    fn stored_place(&mut self) -> Place
        ensures { vec_len self.new.code ≡ vec_len self.old.code }
    {
        let stored = self.code.iter().find_map(|i| match *i {
            Instruction::Store(place, _) => Some(place),
            _ => None,
        });
        match stored {
            Some(place) => place,
            None => self.some_place(),
        }
    }

    // A load, a load of what the thread itself stores, or a store.
    fn event(&mut self) -> Instruction
        ensures { vec_len self.new.code ≡ vec_len self.old.code }
    {
        match self.random.below(3) {
            0 => {
                let place = self.some_place();
                self.load(place)
            }
            1 => {
                let place = self.stored_place();
                self.load(place)
            }
            _ => {
                let place = self.some_place();
                self.store(place)
            }
        }
    }

    // A line that reads and writes nothing.
    fn filler(&mut self) -> Instruction
        ensures { vec_len self.new.code ≡ vec_len self.old.code }
    {
        let into = if self.random.one_in(6) {
            some_register(self.random)
        } else {
            behind(self.full, 3)
        };
        match self.random.below(6) {
            0 | 1 | 2 => number(self.random, into),
            3 => Instruction::Fence,
            _ => {
                let first = some_register(self.random);
                Instruction::Add(into, first, some_register(self.random))
            }
        }
    }

    // A line before the `at`-th, or behind the others where they are fewer, if there is room.
    fn insert(&mut self, at: usize, line: Instruction) -> Result<(), AllocError>
        ensures { OnOk result (vec_len self.new.code ≡ min (vec_len self.old.code + 1) 8) }
    {
        let len = self.code.len();
        if len < 8 {
            self.code.insert(at.min(len), line)?;
        }
        Ok(())
    }

    // A line behind the others, if there is room.
    fn push(&mut self, line: Instruction) -> Result<(), AllocError>
        ensures { OnOk result (vec_len self.new.code ≡ min (vec_len self.old.code + 1) 8) }
    {
        self.insert(8, line)
    }

    // One more load or store, if there may be one.
    fn add_event(&mut self) -> Result<(), AllocError> {
        if self.plan.spare == 0 {
            return Ok(());
        }
        self.plan.spare -= 1;
        let line = self.event();
        self.push(line)
    }

    // At most three more loads and stores.
    fn add_events(&mut self) -> Result<(), AllocError> {
        let count = self.random.below(4);
        for _ in 0..count {
            self.add_event()?;
        }
        Ok(())
    }

    // One more line, anywhere, if there is room.
    fn add_line(&mut self) -> Result<(), AllocError>
        ensures { OnOk result (vec_len self.new.code ≡ min (vec_len self.old.code + 1) 8) }
    {
        if self.code.len() >= 8 {
            return Ok(());
        }
        let line = if self.plan.spare > 0 && self.random.one_in(3) {
            self.plan.spare -= 1;
            self.event()
        } else {
            self.filler()
        };
        let at = self.random.below(9) as usize;
        self.insert(at, line)
    }

    // A few more lines, or lines up to eight instructions; and now and then one left out.
    fn vary(&mut self) -> Result<(), AllocError> {
        let at = self.random.below(40) as usize;
        if at < self.code.len() {
            self.code.remove(at);
        }
        let lines = if self.random.one_in(8) {
            8
        } else {
            self.random.below(4)
        };
        for _ in 0..lines {
            self.add_line()?;
        }
        Ok(())
    }

    // An access to the thread's own place and one to the next thread's.
    fn add_accesses(&mut self, own: u32, next: u32) -> Result<(), AllocError>
        ensures { OnOk result (vec_len self.new.code ≡ min (vec_len self.old.code + 2) 8) }
    {
        let (own, next) = (self.plan.place(own), self.plan.place(next));
        let first = if self.random.one_in(20) {
            self.load(own)
        } else {
            self.store(own)
        };
        let second = if self.random.one_in(12) {
            self.store(next)
        } else {
            self.load(next)
        };
        self.push(first)?;
        self.push(second)
    }
}

// The ring's `at`-th thread.
fn ring_thread(
    heap: Global,
    random: &mut Random,
    plan: &mut Plan,
    at: u32,
) -> Result<Vec<Instruction>, AllocError>
    requires { at < 4 }
    ensures { IfOk result (λ v. vec_len v ≤ 8) }
{
    let next = if at + 1 < plan.ring { at + 1 } else { 0 };
    let twice = plan.twice;
    let mut draft = Draft::new(heap, random, plan)?;
    draft.add_accesses(at, next)?;
    if twice {
        draft.add_accesses(at + 4, next + 4)?;
    }
    draft.vary()?;
    let Draft { code, .. } = draft;
    Ok(code)
}

// A thread that is not in the ring, with at most three loads and stores before it is varied.
fn free_thread(
    heap: Global,
    random: &mut Random,
    plan: &mut Plan,
) -> Result<Vec<Instruction>, AllocError>
    ensures { IfOk result (λ v. vec_len v ≤ 8) }
{
    let mut draft = Draft::new(heap, random, plan)?;
    draft.add_events()?;
    draft.vary()?;
    let Draft { code, .. } = draft;
    Ok(code)
}

// The `at`-th thread, counted from the ring's first.
fn thread(
    heap: Global,
    random: &mut Random,
    plan: &mut Plan,
    at: u32,
) -> Result<Vec<Instruction>, AllocError>
    requires { at < 4 }
    ensures { IfOk result (λ v. vec_len v ≤ 8) }
{
    if at < plan.ring && !random.one_in(24) {
        return ring_thread(heap, random, plan, at);
    }
    if random.one_in(3) {
        return Ok(Vec::new(heap));
    }
    free_thread(heap, random, plan)
}

fn ring_size(random: &mut Random, count: u32) -> u32
    ensures { result ≤ count }
{
    if random.one_in(9) {
        return 0;
    }
    if count > 2 && random.one_in(4) {
        return count - 1;
    }
    count
}

fn count_of(random: &mut Random, limits: Limits) -> u32
    ensures { (0 < result) × (result ≤ 4) }
{
    let most = limits.threads.min(4);
    if most < 2 || random.one_in(16) {
        return 1;
    }
    2 + random.below(most - 1)
}

fn new_plan(random: &mut Random, limits: Limits, count: u32) -> Plan
    requires { count ≤ 4 }
{
    let ring = ring_size(random, count).min(limits.events / 2);
    let twice = 4 * ring <= limits.events && random.one_in(3);
    let accesses = if twice { 4 * ring } else { 2 * ring };
    let start = random.below(8);
    let stride = 2 * random.below(4) + 1;
    Plan {
        ring,
        twice,
        start,
        stride,
        spare: limits.events.saturating_sub(accesses),
    }
}

// A program as words. Its events are at most as many as the limits say.
pub fn program_words(
    heap: Global,
    random: &mut Random,
    limits: Limits,
) -> Result<Vec<u32>, AllocError> {
    let count = count_of(random, limits);
    let mut plan = new_plan(random, limits, count);
    let first = random.below(count);
    let mut words = Vec::new(heap);
    words.push(count)?;
    for n in 0..count {
        let code = thread(heap, random, &mut plan, (n + first) % count)?;
        words.push(code.len() as u32)?;
        push_code(&mut words, code.as_slice())?;
    }
    Ok(words)
}
