// Counts by kind of what was compared: how often each kind of words came up.
use crate::answers::Said;
use program::instructions::{Instruction, Place};
use std::fmt;

// What is counted. Where nothing else is said, it is a program that has this.
#[derive(Clone, Copy, PartialEq, Eq, PartialOrd, Ord, Debug)]
pub enum Kind {
    Words,
    NoProgram,
    Crowded,
    // so many fences are needed, or as many and more where it is the last that is counted
    Fences(usize),
    Threads(usize),
    OwnFence,
    EmptyThread,
    FullThread,
    Sum,
    Reread,
    // it is read or written
    Place(u32),
    Differences,
}

// All that is counted, in the order in which it is printed.
const KINDS: [Kind; 26] = [
    Kind::Words,
    Kind::NoProgram,
    Kind::Crowded,
    Kind::Fences(0),
    Kind::Fences(1),
    Kind::Fences(2),
    Kind::Fences(3),
    Kind::Fences(4),
    Kind::Threads(1),
    Kind::Threads(2),
    Kind::Threads(3),
    Kind::Threads(4),
    Kind::OwnFence,
    Kind::EmptyThread,
    Kind::FullThread,
    Kind::Sum,
    Kind::Reread,
    Kind::Place(0),
    Kind::Place(1),
    Kind::Place(2),
    Kind::Place(3),
    Kind::Place(4),
    Kind::Place(5),
    Kind::Place(6),
    Kind::Place(7),
    Kind::Differences,
];

impl fmt::Display for Kind {
    fn fmt<W: fmt::Write>(&self, f: &mut fmt::Formatter<W>) -> fmt::Result {
        match *self {
            Kind::Words => f.write_str("words"),
            Kind::NoProgram => f.write_str("no program"),
            Kind::Crowded => f.write_str("crowded"),
            Kind::Fences(0) => f.write_str("plain"),
            Kind::Fences(1) => f.write_str("one fence"),
            Kind::Fences(2) => f.write_str("two fences"),
            Kind::Fences(3) => f.write_str("three fences"),
            Kind::Fences(_) => f.write_str("more fences"),
            Kind::Threads(1) => f.write_str("one thread"),
            Kind::Threads(2) => f.write_str("two threads"),
            Kind::Threads(3) => f.write_str("three threads"),
            Kind::Threads(_) => f.write_str("four threads"),
            Kind::OwnFence => f.write_str("a thread with a fence"),
            Kind::EmptyThread => f.write_str("a thread of no instruction"),
            Kind::FullThread => f.write_str("a thread of eight instructions"),
            Kind::Sum => f.write_str("a sum"),
            Kind::Reread => f.write_str("a read of an own store"),
            Kind::Place(place) => write!(f, "place {place}"),
            Kind::Differences => f.write_str("differences"),
        }
    }
}

// Whether an instruction before the `end`-th stores to the place.
fn stores_to(code: &[Instruction], end: usize, place: Place) -> bool {
    code.iter().take(end).any(|i| matches!(*i, Instruction::Store(stored, _) if stored == place))
}

// Whether a thread reads a place that it stored to before.
fn rereads(code: &[Instruction]) -> bool {
    for (at, i) in code.iter().enumerate() {
        if let Instruction::Load(_, place) = *i
            && stores_to(code, at, place)
        {
            return true;
        }
    }
    false
}

// Whether an instruction is of this kind.
fn is_of(i: Instruction, kind: Kind) -> bool {
    match i {
        Instruction::Set(_, _) => false,
        Instruction::Add(_, _, _) => kind == Kind::Sum,
        Instruction::Load(_, place) => kind == Kind::Place(place.0),
        Instruction::Store(place, _) => kind == Kind::Place(place.0),
        Instruction::Fence => kind == Kind::OwnFence,
    }
}

// Whether a thread is of this kind, or an instruction of it.
fn has(code: &[Instruction], kind: Kind) -> bool {
    match kind {
        Kind::EmptyThread => code.is_empty(),
        Kind::FullThread => code.len() == 8,
        Kind::Reread => rereads(code),
        _ => code.iter().any(|i| is_of(*i, kind)),
    }
}

// How often each kind came up, in the order of `KINDS`.
#[derive(Clone, Copy)]
pub struct Counts([u64; 26]);

impl Counts {
    pub fn new() -> Counts {
        Counts([0; 26])
    }

    pub fn of(&self, kind: Kind) -> u64 {
        KINDS
            .iter()
            .zip(self.0.iter())
            .find(|(counted, _)| **counted == kind)
            .map_or(0, |(_, count)| *count)
    }

    pub fn add(&mut self, kind: Kind) {
        if let Some(at) = KINDS.iter().position(|counted| *counted == kind) {
            self.0[at] = self.0[at].saturating_add(1);
        }
    }

    // Counts words by what was said of them.
    pub fn add_words(&mut self, said: &Said) {
        self.add(Kind::Words);
        match said {
            Said::NoProgram => self.add(Kind::NoProgram),
            Said::Crowded => self.add(Kind::Crowded),
            Said::Program(answer) => {
                let fences = answer.fences.as_ref().map_or(0, |fences| fences.len());
                self.add(Kind::Fences(fences.min(4)));
            }
            Said::Apart(_, _) => {}
        }
    }

    // Counts a program by what it has.
    pub fn add_program(&mut self, threads: &[Vec<Instruction>]) {
        self.add(Kind::Threads(threads.len()));
        for kind in KINDS {
            if threads.iter().any(|code| has(code.as_slice(), kind)) {
                self.add(kind);
            }
        }
    }
}

// The counts side by side: of the worked programs, of those made at random, and of damaged words.
pub fn print(
    rt: &HostRuntime,
    worked: &Counts,
    random: &Counts,
    damaged: &Counts,
) -> anyhow::Result<()> {
    println!(rt; "{:<31}{:>9}{:>9}{:>9}", "", "worked", "random", "damaged")?;
    for kind in KINDS {
        let name = kind.to_string(rt.alloc())?;
        let (first, second, third) = (worked.of(kind), random.of(kind), damaged.of(kind));
        println!(rt; "{name:<31}{first:>9}{second:>9}{third:>9}")?;
    }
    Ok(())
}
