// The words that a program with its names is, as `program::words` reads them.
ghost use Rattle.std.specs.Prelude.{◌≡◌, ◌^◌, ◌<◌, ◌∷◌, ◌++◌, map, length, IfOk, Ok, OnOk};
ghost use Rattle.model.specs.Code.{row, row_t};
ghost use Rattle.program.specs.Instructions.{instruction};
ghost use Rattle.text.specs.Grammar.{program};
ghost use Rattle.text.specs.Meaning.{listing};

use crate::source::Source;
use program::instructions::Instruction;
use program::words::push_code;
use std::alloc::{AllocError, Global};

// How many, as a word. More than a word can say would not fit into memory either.
fn count(n: usize) -> Result<u32, AllocError>
    ensures value { IfOk result (λ w. w ≡ n) }
    ensures fits { n < 2 ^ 32 → result ≡ Ok n }
{
    if n > 0xffff_ffff {
        return Err(AllocError);
    }
    Ok(n as u32)
}

// Adds a thread's words: how many instructions, and each.
fn push_thread(words: &mut Vec<u32>, code: &[Instruction]) -> Result<(), AllocError>
    ensures { OnOk result (words.new.items ≡ words.old.items ++ (length (map instruction code.now) ∷ row_t (map instruction code.now))) }
{
    words.push(count(code.len())?)?;
    push_code(words, code)?;
    Ok(())
}

// The words of a program with its names.
pub fn to_words(heap: Global, source: &Source) -> Result<Vec<u32>, AllocError>
    ensures { IfOk result (λ v. v.items ≡ row (program (listing source.now))) }
{
    let mut words = Vec::new(heap);
    words.push(count(source.threads.len())?)?;
    for thread in &source.threads {
        push_thread(&mut words, thread.code.as_slice())?;
    }
    Ok(words)
}
