// Words to program and back. As words a program is how many threads it has; for each how many instructions, and four
// words for each of these: 0 register number 0; 1 register first second; 2 register place 0; 3 place register 0;
// 4 0 0 0.
ghost use Rattle.std.specs.Prelude.{◌≡◌, [], ◌∷◌, ◌++◌, map, length, IfOk, OnOk};
ghost use Rattle.model.specs.Code.{row_i, row_t, Reads};
ghost use Rattle.program.specs.Instructions.{instruction};
ghost use Rattle.program.specs.Meaning.{program};
ghost use Rattle.program.specs.Post.{InstructionRead, ThreadRead, ProgramRead};

use crate::instructions::{Instruction, Place, Register};
use crate::threads::{Program, Thread};
use arrayvec::ArrayVec;
use std::alloc::{AllocError, Global};

// The instruction that four words are, if they are one.
fn instruction_from_words(code: u32, first: u32, second: u32, third: u32) -> Option<Instruction>
    ensures { InstructionRead (code ∷ first ∷ second ∷ third ∷ []) result }
{
    match code {
        0 if first < 4 && second < 16 && third == 0 => Some(Instruction::Set(
            Register(first),
            second,
        )),
        1 if first < 4 && second < 4 && third < 4 => {
            Some(Instruction::Add(Register(first), Register(second), Register(third)))
        }
        2 if first < 4 && second < 8 && third == 0 => Some(Instruction::Load(
            Register(first),
            Place(second),
        )),
        3 if first < 8 && second < 4 && third == 0 => Some(Instruction::Store(
            Place(first),
            Register(second),
        )),
        4 if first == 0 && second == 0 && third == 0 => Some(Instruction::Fence),
        0..=4 => None,
        5..=u32::MAX => None,
    }
}

// The thread that the words begin with, if they begin with one, and the words behind it.
fn thread_from_words(words: &[u32]) -> Option<(Thread, &[u32])>
    ensures { ThreadRead words.now result }
{
    let (len, mut rest) = words.split_first()?;
    if *len > 8 {
        return None;
    }
    let mut code = ArrayVec::new();
    for _k in 0..*len {
        let [a, b, c, d, behind @ ..] = rest else {
            return None;
        };
        code.push(instruction_from_words(*a, *b, *c, *d)?);
        rest = behind;
    }
    Some((Thread { code }, rest))
}

// The program that the words are, if they are one.
pub fn from_words(words: &[u32]) -> Option<Program>
    ensures { ProgramRead words.now result }
{
    let (count, mut rest) = words.split_first()?;
    if *count < 1 || *count > 4 {
        return None;
    }
    let mut threads = ArrayVec::new();
    for _n in 0..*count {
        let (thread, behind) = thread_from_words(rest)?;
        threads.push(thread);
        rest = behind;
    }
    if !rest.is_empty() {
        return None;
    }
    Some(Program { threads })
}

// The four words of an instruction.
pub fn instruction_to_words(i: Instruction) -> [u32; 4]
    ensures { result ≡ row_i (instruction i) }
{
    match i {
        Instruction::Set(r, n) => [0, r.0, n, 0],
        Instruction::Add(r, a, b) => [1, r.0, a.0, b.0],
        Instruction::Load(r, x) => [2, r.0, x.0, 0],
        Instruction::Store(x, r) => [3, x.0, r.0, 0],
        Instruction::Fence => [4, 0, 0, 0],
    }
}

// Adds the four words of each instruction.
pub fn push_code(words: &mut Vec<u32>, code: &[Instruction]) -> Result<(), AllocError>
    ensures { OnOk result (words.new.items ≡ words.old.items ++ row_t (map instruction code.now)) }
{
    for i in code {
        words.extend_from_slice(&instruction_to_words(*i))?;
    }
    Ok(())
}

// The words that the program is. `from_words` gives the program back, since words are at most one program.
pub fn to_words(heap: Global, p: &Program) -> Result<Vec<u32>, AllocError>
    ensures { IfOk result (λ v. Reads v.items (program p.now)) }
{
    let mut words = Vec::new(heap);
    words.push(p.count() as u32)?;
    for thread in p.threads() {
        let code = thread.instructions();
        words.push(code.len() as u32)?;
        push_code(&mut words, code)?;
    }
    Ok(words)
}
