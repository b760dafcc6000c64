// The instruction of a cell.
ghost use Rattle.std.specs.Prelude.{◌≡◌, ◌&&◌, map, codes};
ghost use Rattle.program.specs.Instructions.{instruction as meant};
ghost use Rattle.text.specs.Answers.{Answers};
ghost use Rattle.text.specs.Bytes.{same};
ghost use Rattle.text.specs.Grammar.{Places as Named, register, number, set, sum, load, store, instruction};
ghost use Rattle.text.specs.Meaning.{places, token};

use crate::faults::{Expected, Fault, Spot};
use crate::misfits::misfit;
use crate::pieces::Piece;
use crate::places::Places;
use program::instructions::{Instruction, Register};
use std::alloc::Global;

// r0 to r3.
fn register(heap: Global, word: Piece<'_>) -> Result<Register, Fault>
    ensures { Answers result (λ x. x.0) (register (token word.entry)) }
{
    match word.text {
        [b'r', b @ b'0'..=b'3'] => Ok(Register(u32::from(*b - b'0'))),
        _ => Err(word.fault(heap, Expected::Register)),
    }
}

// 0 to 15, without noughts in front.
fn number(heap: Global, word: Piece<'_>) -> Result<u32, Fault>
    ensures { Answers result (λ n. n) (number (token word.entry)) }
{
    match word.text {
        [b @ b'0'..=b'9'] => Ok(u32::from(*b - b'0')),
        [b'1', b @ b'0'..=b'5'] => Ok(u32::from(*b - b'0') + 10),
        _ => Err(word.fault(heap, Expected::Number)),
    }
}

// r1 = 7
fn set(heap: Global, a: Piece<'_>, c: Piece<'_>) -> Result<Instruction, Fault>
    ensures { (ps : Named) → Answers result (λ i. (ps, meant i)) (set ps (token a.entry) (token c.entry)) }
{
    let r = register(heap, a)?;
    let n = number(heap, c)?;
    Ok(Instruction::Set(r, n))
}

// r1 = r2 + r3
fn sum(heap: Global, a: Piece<'_>, c: Piece<'_>, e: Piece<'_>) -> Result<Instruction, Fault>
    ensures { (ps : Named) → Answers result (λ i. (ps, meant i)) (sum ps (token a.entry) (token c.entry) (token e.entry)) }
{
    let r = register(heap, a)?;
    let first = register(heap, c)?;
    let second = register(heap, e)?;
    Ok(Instruction::Add(r, first, second))
}

// r1 = [place]
fn load(heap: Global, named: &mut Places, a: Piece<'_>, d: Piece<'_>) -> Result<Instruction, Fault>
    ensures { Answers result (λ i. (places named.new, meant i)) (load (places named.old) (token a.entry) (token d.entry)) }
{
    let r = register(heap, a)?;
    let x = named.place(heap, d)?;
    Ok(Instruction::Load(r, x))
}

// [place] = r1
fn store(heap: Global, named: &mut Places, b: Piece<'_>, e: Piece<'_>) -> Result<Instruction, Fault>
    ensures { Answers result (λ i. (places named.new, meant i)) (store (places named.old) (token b.entry) (token e.entry)) }
{
    let x = named.place(heap, b)?;
    let r = register(heap, e)?;
    Ok(Instruction::Store(x, r))
}

fn is_sum(b: Piece<'_>, d: Piece<'_>) -> bool
    ensures { result ≡ (same (token b.entry) (codes "=") && same (token d.entry) (codes "+")) }
{
    b.is(b"=") && d.is(b"+")
}

fn is_load(b: Piece<'_>, c: Piece<'_>, e: Piece<'_>) -> bool
    ensures { result ≡ (same (token b.entry) (codes "=") && (same (token c.entry) (codes "[") && same (token e.entry) (codes "]"))) }
{
    b.is(b"=") && c.is(b"[") && e.is(b"]")
}

fn is_store(a: Piece<'_>, c: Piece<'_>, d: Piece<'_>) -> bool
    ensures { result ≡ (same (token a.entry) (codes "[") && (same (token c.entry) (codes "]") && same (token d.entry) (codes "="))) }
{
    a.is(b"[") && c.is(b"]") && d.is(b"=")
}

// The instruction of a cell's tokens; `end` is where the cell ends.
pub fn instruction(
    heap: Global,
    named: &mut Places,
    tokens: &[Piece<'_>],
    end: Spot,
) -> Result<Instruction, Fault>
    ensures { Answers result (λ i. (places named.new, meant i)) (instruction (places named.old) (map token tokens.now)) }
{
    match tokens {
        [a] if a.is(b"fence") => Ok(Instruction::Fence),
        [a, b, c] if b.is(b"=") => set(heap, *a, *c),
        [a, b, c, d, e] if is_sum(*b, *d) => sum(heap, *a, *c, *e),
        [a, b, c, d, e] if is_load(*b, *c, *e) => load(heap, named, *a, *d),
        [a, b, c, d, e] if is_store(*a, *c, *d) => store(heap, named, *b, *e),
        _ => Err(misfit(heap, tokens, end)),
    }
}
