// Programs whose answer is known.
use crate::asked::{ask, unchanged};
use crate::texts;
use crate::texts::words_of;
use cli::fenced::fenced;
use cli::lending::work_for;
use fences::looking::Verdict;
use program::words::from_words;
use replay::making::replayed;
use std::alloc::Global;
use std::process::Abort;
use std::test::Fail;
use text::reading::parse;
use text::words::to_words;
use trials::known;

const MOST: u32 = 1000;

fn is_plain(rt: &impl Abort, heap: Global, words: &[u32]) -> Result<(), Fail> {
    let got = ask(heap, words, MOST, 256, work_for(MOST))?;
    assert!(rt; matches!(got.looked, Ok(Verdict::Plain)));
    assert!(rt; unchanged(got.out.as_slice(), 0));
    Ok(())
}

fn plain(rt: &impl Abort, heap: Global, text: &str) -> Result<(), Fail> {
    is_plain(rt, heap, words_of(heap, text)?.as_slice())
}

// The told run can be made, and ends with all done and nothing waiting.
fn can_be_made(rt: &impl Abort, words: &[u32], told: &[u32]) -> Result<(), Fail> {
    let p = from_words(words).ok_or("no program")?;
    let run = replayed(p, told).ok_or("a move can't be made")?;
    assert!(rt; run.is_finished());
    Ok(())
}

// The program is not plain. Its told run can be made; the told fences are these; with them it is plain.
fn needs(
    rt: &impl Abort,
    heap: Global,
    text: &str,
    moves: usize,
    fences: &[u32],
) -> Result<(), Fail> {
    let source = parse(heap, text)?;
    let words = to_words(heap, &source)?;
    let got = ask(heap, words.as_slice(), MOST, 256, work_for(MOST))?;
    let Ok(Verdict::Fences(m, k)) = got.looked else {
        return Err(Fail::new("no fences"));
    };
    assert_eq!(rt; m, moves);
    assert_eq!(rt; k.saturating_mul(2), fences.len());
    let end = moves.saturating_add(fences.len());
    assert!(rt; moves <= end && end <= got.out.len());
    let out = got.out.as_slice();
    assert!(rt; &out[moves..end] == fences);
    assert!(rt; unchanged(out, end));
    can_be_made(rt, words.as_slice(), &out[0..moves])?;
    let with_fences = fenced(heap, &source, fences)?;
    is_plain(rt, heap, to_words(heap, &with_fences)?.as_slice())
}

#[test]
fn some_need_fences(rt: HostRuntime) -> Result<(), Fail> {
    let heap = rt.alloc();
    needs(&rt, heap, texts::STORE_BUFFERING, 8, &[0, 2, 1, 2])?;
    needs(&rt, heap, texts::THIRD_PLACE, 12, &[0, 2, 1, 2])?;
    needs(&rt, heap, texts::OWN_READ, 10, &[0, 2, 1, 2])?;
    needs(&rt, heap, texts::FENCES_FIRST, 10, &[0, 3, 1, 3])?;
    needs(&rt, heap, texts::RING_OF_THREE, 12, &[0, 2, 1, 2, 2, 2])?;
    needs(&rt, heap, texts::N6, 10, &[0, 2])
}

#[test]
fn some_are_plain(rt: HostRuntime) -> Result<(), Fail> {
    let heap = rt.alloc();
    plain(&rt, heap, texts::FENCES_BEHIND_STORES)?;
    plain(&rt, heap, texts::BOTH_WRITE_BOTH)?;
    plain(&rt, heap, texts::ONE_THREAD)?;
    let known = [
        known::MESSAGE_PASSING,
        known::LOAD_BUFFERING,
        known::TWO_AND_TWO_WRITES,
        known::WRITE_AND_WRITE,
        known::INDEPENDENT_READS,
        known::OWN_STORE_READ,
        known::NOTHING,
    ];
    for text in known {
        is_plain(&rt, heap, known::words_in(heap, text)?.as_slice())?;
    }
    Ok(())
}

fn cannot_be_made(rt: &impl Abort, words: &[u32], told: &[u32]) -> Result<(), Fail> {
    let p = from_words(words).ok_or("no program")?;
    assert!(rt; replayed(p, told).is_none());
    Ok(())
}

// A store goes to memory where none waits, or before it was done; more instructions than there are; a thread that is not
// there, by its instruction and by its store.
#[test]
fn other_runs_are_refused(rt: HostRuntime) -> Result<(), Fail> {
    let words = known::words_in(rt.alloc(), known::STORE_BUFFERING)?;
    let words = words.as_slice();
    cannot_be_made(&rt, words, &[4])?;
    cannot_be_made(&rt, words, &[0, 4, 0])?;
    cannot_be_made(&rt, words, &[0, 0, 0, 0])?;
    cannot_be_made(&rt, words, &[2])?;
    cannot_be_made(&rt, words, &[6])?;
    cannot_be_made(&rt, words, &[8])
}
