// What is answered, and what is written, where words are short or states are many.
use crate::asked::{ask, unchanged};
use crate::texts;
use crate::texts::words_of;
use cli::lending::work_for;
use fences::looking::Verdict;
use fences::refusals::Refusal;
use std::test::Fail;
use trials::known;

#[test]
fn fewer_than_256_words_are_too_few_for_fences(rt: HostRuntime) -> Result<(), Fail> {
    let heap = rt.alloc();
    let words = words_of(heap, texts::STORE_BUFFERING)?;
    for room in [0u32, 127, 255] {
        let got = ask(heap, words.as_slice(), 100, room, work_for(100))?;
        assert!(rt; matches!(got.looked, Err(Refusal::OutFull)));
        assert!(rt; unchanged(got.out.as_slice(), 0));
    }
    let got = ask(heap, words.as_slice(), 100, 256, work_for(100))?;
    assert!(rt; matches!(got.looked, Ok(Verdict::Fences(8, 2))));
    assert!(rt; unchanged(got.out.as_slice(), 12));
    assert!(rt; !unchanged(got.out.as_slice(), 11));
    Ok(())
}

// A plain program and words that are no program are answered with no words to write to.
#[test]
fn nothing_else_is_written(rt: HostRuntime) -> Result<(), Fail> {
    let heap = rt.alloc();
    let plain = known::words_in(heap, known::MESSAGE_PASSING)?;
    for room in [0u32, 127, 255, 256] {
        let got = ask(heap, plain.as_slice(), 100, room, work_for(100))?;
        assert!(rt; matches!(got.looked, Ok(Verdict::Plain)));
        assert!(rt; unchanged(got.out.as_slice(), 0));
        let got = ask(heap, &[2, 9], 100, room, work_for(100))?;
        assert!(rt; matches!(got.looked, Err(Refusal::NoProgram)));
        assert!(rt; unchanged(got.out.as_slice(), 0));
    }
    Ok(())
}

// The program has 45 states. More than are allowed are answered for where the lent memory holds them.
#[test]
fn few_words_lent(rt: HostRuntime) -> Result<(), Fail> {
    let heap = rt.alloc();
    let words = words_of(heap, texts::STORE_BUFFERING)?;
    for most in [0u32, 44, 45] {
        let got = ask(heap, words.as_slice(), most, 256, work_for(most))?;
        assert!(rt; matches!(got.looked, Ok(Verdict::Fences(8, 2))));
        let got = ask(
            heap,
            words.as_slice(),
            most,
            256,
            work_for(most).saturating_sub(1),
        )?;
        assert!(rt; matches!(got.looked, Err(Refusal::Few)));
        assert!(rt; unchanged(got.out.as_slice(), 0));
    }
    Ok(())
}

#[test]
fn many_states_are_crowded(rt: HostRuntime) -> Result<(), Fail> {
    let heap = rt.alloc();
    let words = words_of(heap, texts::CROWDED)?;
    let got = ask(heap, words.as_slice(), 2000, 256, work_for(2000))?;
    assert!(rt; matches!(got.looked, Err(Refusal::Crowded)));
    assert!(rt; unchanged(got.out.as_slice(), 0));
    Ok(())
}
