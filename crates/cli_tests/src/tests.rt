// Tests of what the programs share: numbers in lines, and what is shown of an outcome.
use cli::lending::{Lent, work_for};
use cli::{numbers, shown};
use fences::listing::Listing;
use fences::looking::Verdict;
use std::alloc::Global;
use std::process::Abort;
use std::test::Fail;
use text::{reading, words};

// The line is refused with this message.
fn refused(rt: &impl Abort, heap: Global, bytes: &[u8], message: &str) -> Result<(), Fail> {
    match numbers::parse(heap, 3, bytes) {
        Ok(_) => Err(Fail::new("it is read")),
        Err(trouble) => {
            let told = format!(in heap; "{trouble}")?;
            assert!(rt; told.as_str() == message, "{}", message);
            Ok(())
        }
    }
}

// The line is read as numbers that are printed as the other.
fn read(rt: &impl Abort, heap: Global, bytes: &[u8], again: &str) -> Result<(), Fail> {
    match numbers::parse(heap, 1, bytes) {
        Ok(words) => {
            let told = numbers::line(heap, words.as_slice())?;
            assert!(rt; told.as_str() == again, "{}", again);
            Ok(())
        }
        Err(_) => Err(Fail::new("it is refused")),
    }
}

#[test]
fn reads_numbers(rt: HostRuntime) -> Result<(), Fail> {
    let heap = rt.alloc();
    read(&rt, heap, b"", "")?;
    read(&rt, heap, b"1 0", "1 0")?;
    read(&rt, heap, b" 007\t4294967295 \r", "7 4294967295")?;
    refused(
        &rt,
        heap,
        b"1 x",
        "standard input:3:3: expected a number, found the byte 120",
    )?;
    refused(
        &rt,
        heap,
        b"-1",
        "standard input:3:1: expected a number, found the byte 45",
    )?;
    refused(
        &rt,
        heap,
        b"4294967296",
        "standard input:3:10: expected a number below 4294967296, found a larger one",
    )
}

// Title and place of all that is shown of a program.
fn shown_of(heap: Global, text: &str) -> Result<String, Fail> {
    let source = reading::parse(heap, text)?;
    let mut told = String::new(heap);
    for one in shown::of_program(heap, &source)?.iter() {
        let (title, at) = (one.title.as_str(), one.at);
        write!(told, "{title} {at};")?;
    }
    Ok(told)
}

// Registers and places that the program uses, in the order of an outcome's values.
#[test]
fn shows_what_is_used(rt: HostRuntime) -> Result<(), Fail> {
    let heap = rt.alloc();
    let told = shown_of(heap, "up | down\nr3 = [b] | [a] = r1")?;
    assert!(rt; told.as_str() == "up.r3 3;down.r1 5;[b] 8;[a] 9;");
    Ok(())
}

#[test]
fn shows_all_that_is_used(rt: HostRuntime) -> Result<(), Fail> {
    let heap = rt.alloc();
    let told = shown_of(
        heap,
        "up | down\nr3 = [b] | [a] = r1\nr0 = 2 | r2 = r3 + r0",
    )?;
    assert!(rt;
        told.as_str() == "up.r0 0;up.r3 3;down.r0 4;down.r1 5;down.r2 6;down.r3 7;[b] 8;[a] 9;"
    );
    Ok(())
}

#[test]
fn tells_words(rt: HostRuntime) -> Result<(), Fail> {
    let heap = rt.alloc();
    let source = reading::parse(
        heap,
        "up | idle\nr1 = 7\nr1 = r2 + r3\nr1 = [5]\n[5] = r1\nfence",
    )?;
    let words = words::to_words(heap, &source)?;
    let told = numbers::line(heap, words.as_slice())?;
    assert!(rt; told.as_str() == "2 5 0 1 7 0 1 1 2 3 2 1 5 0 3 5 1 0 4 0 0 0 0");
    Ok(())
}

// The calls answer in memory that is lent, and what they tell is read in parts.
#[test]
fn lends_memory(rt: HostRuntime) -> Result<(), Fail> {
    let heap = rt.alloc();
    let source = reading::parse(
        heap,
        "up | down\nr0 = 1 | r0 = 1\n[a] = r0 | [b] = r0\nr1 = [b] | r1 = [a]",
    )?;
    let words = words::to_words(heap, &source)?;
    let mut lent = Lent::new(heap, 100, work_for(100), 256)?;
    assert!(rt;
        matches!(
            lent.outcomes(words.as_slice()),
            Ok(Listing {
                outcomes: 4,
                states: 45
            })
        )
    );
    assert!(rt; matches!(lent.look(words.as_slice()), Ok(Verdict::Fences(8, 2))));
    assert!(rt; lent.told(8, 4) == [0, 2, 1, 2].as_slice());
    assert!(rt; lent.told(252, 9).len() == 4);
    assert!(rt; lent.told(300, 9).is_empty());
    Ok(())
}
