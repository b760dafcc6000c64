// The calls for C and Rust, as a static library: include/fences.h declares them. A slice is a pointer and then a length.
#![tactic(auto)]

ghost use Rattle.std.specs.Prelude.{◌≡◌, length};
ghost use Rattle.capi.specs.Told.{kind_of, looked_as, listed_as, LookedC, ListedC};

use fences::listing::{Listed, Listing, outcomes};
use fences::looking::{Looked, Verdict, look};
use fences::refusals::Refusal;

// What `look` answers: its kind, and with `fences` how many moves and how many fences are told.
#[repr(C)]
#[derive(Clone, Copy)]
pub struct FencesLooked {
    pub kind: u32,
    pub moves: usize,
    pub fences: usize,
}

// What `outcomes` answers: its kind, and how many outcomes and states there are where all are listed.
#[repr(C)]
#[derive(Clone, Copy)]
pub struct FencesListed {
    pub kind: u32,
    pub outcomes: usize,
    pub states: usize,
}

// A struct of C has no enum: its kind is a number.
fn kind_of(refusal: Refusal) -> u32
    ensures { result ≡ kind_of refusal }
{
    match refusal {
        Refusal::Crowded => 2,
        Refusal::OutFull => 3,
        Refusal::NoProgram => 4,
        Refusal::Few => 5,
    }
}

fn looked(answer: Looked) -> FencesLooked
    ensures { result ≡ looked_as answer }
{
    let (kind, moves, fences) = match answer {
        Ok(Verdict::Plain) => (0, 0, 0),
        Ok(Verdict::Fences(moves, fences)) => (1, moves, fences),
        Err(refusal) => (kind_of(refusal), 0, 0),
    };
    FencesLooked {
        kind,
        moves,
        fences,
    }
}

fn listed(answer: Listed) -> FencesListed
    ensures { result ≡ listed_as answer }
{
    let (kind, outcomes, states) = match answer {
        Ok(Listing { outcomes, states }) => (0, outcomes, states),
        Err(refusal) => (kind_of(refusal), 0, 0),
    };
    FencesListed {
        kind,
        outcomes,
        states,
    }
}

#[unsafe(no_mangle)]
pub extern "C" fn fences_look(
    words: &[u32],
    most: u32,
    out: &mut [u32],
    work: &mut [u32],
) -> FencesLooked
    ensures { LookedC words.now most (length work.old) out.old out.new result }
{
    looked(look(words, most, out, work))
}

#[unsafe(no_mangle)]
pub extern "C" fn fences_outcomes(
    words: &[u32],
    most: u32,
    out: &mut [u32],
    work: &mut [u32],
) -> FencesListed
    ensures { ListedC words.now most (length work.old) out.old out.new result }
{
    listed(outcomes(words, most, out, work))
}
