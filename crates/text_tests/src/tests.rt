// Tests of the readable form: what is refused, with its message and its place, and what is read and printed again.
use program::instructions::Instruction;
use std::alloc::Global;
use std::process::Abort;
use std::test::Fail;
use text::{printing, reading};

// The text is refused with this message.
fn refused(rt: &impl Abort, heap: Global, text: &str, message: &str) -> Result<(), Fail> {
    match reading::parse(heap, text) {
        Ok(_) => Err(Fail::new("it is read")),
        Err(fault) => {
            let told = format!(in heap; "{fault}")?;
            assert!(rt; told.as_str() == message, "{}", message);
            Ok(())
        }
    }
}

// The text is read, and printed as the other.
fn printed(rt: &impl Abort, heap: Global, text: &str, again: &str) -> Result<(), Fail> {
    let source = reading::parse(heap, text)?;
    let told = printing::print(heap, &source)?;
    assert!(rt; told.as_str() == again, "{}", again);
    Ok(())
}

#[test]
fn refuses_wrong_threads(rt: HostRuntime) -> Result<(), Fail> {
    let heap = rt.alloc();
    for (text, message) in [
        (
            "",
            "1:1: expected the name of a thread, found the end of the text",
        ),
        (
            "# none\n\n",
            "3:1: expected the name of a thread, found the end of the text",
        ),
        (
            "up | | down",
            "1:5: expected the name of a thread, found the end of the cell",
        ),
        ("up | =", "1:6: expected the name of a thread, found `=`"),
        (
            "up down",
            "1:4: expected `|` or the end of the line, found `down`",
        ),
        (
            "up | up",
            "1:6: expected the name of another thread, found `up`",
        ),
        ("a|b|c|d|e", "1:9: expected at most four threads, found `e`"),
        (
            "up\nfence | fence",
            "2:7: expected the end of the line, found `|`",
        ),
    ] {
        refused(&rt, heap, text, message)?;
    }
    Ok(())
}

#[test]
fn refuses_wrong_instructions(rt: HostRuntime) -> Result<(), Fail> {
    let heap = rt.alloc();
    for (text, message) in [
        (
            "up\nr4 = 1",
            "2:1: expected a register r0 to r3, found `r4`",
        ),
        ("up\nr1 = 16", "2:6: expected a number 0 to 15, found `16`"),
        ("up\nr1 = 07", "2:6: expected a number 0 to 15, found `07`"),
        (
            "up\nr1 = r2 + 3",
            "2:11: expected a register r0 to r3, found `3`",
        ),
        (
            "up\n wait",
            "2:2: expected `r1 = 7`, `r1 = r2 + r3`, `r1 = [place]`, `[place] = r1` or `fence`, found `wait`",
        ),
        (
            "up\nr1 = [a",
            "2:8: expected `]`, found the end of the cell",
        ),
        ("up\n[a] + r1", "2:5: expected `=`, found `+`"),
        ("up\nfence; fence", "2:6: expected text, found `;`"),
        (
            "up\nf\nf",
            "2:1: expected `r1 = 7`, `r1 = r2 + r3`, `r1 = [place]`, `[place] = r1` or `fence`, found `f`",
        ),
    ] {
        refused(&rt, heap, text, message)?;
    }
    refused(
        &rt,
        heap,
        "up\nfence\nfence\nfence\nfence\nfence\nfence\nfence\nfence\nfence",
        "10:1: expected at most eight instructions in a thread, found `fence`",
    )
}

#[test]
fn refuses_wrong_places(rt: HostRuntime) -> Result<(), Fail> {
    let heap = rt.alloc();
    refused(
        &rt,
        heap,
        "up\nr1 = [8]",
        "2:7: expected a place 0 to 7, found `8`",
    )?;
    refused(
        &rt,
        heap,
        "up\nr1 = [a]\nr1 = [0]",
        "3:7: expected a place named by a word, found `0`",
    )?;
    refused(
        &rt,
        heap,
        "up\nr1 = [0]\nr1 = [a]",
        "3:7: expected a place 0 to 7, found `a`",
    )?;
    refused(
        &rt,
        heap,
        "up\nr1 = [=]",
        "2:7: expected a place, found `=`",
    )?;
    refused(
        &rt,
        heap,
        "u|v\nr0=[a]|r0=[b]\nr0=[c]|r0=[d]\nr0=[e]|r0=[f]\nr0=[g]|r0=[h]\nr0=[i]",
        "6:5: expected at most eight places, found `i`",
    )
}

#[test]
fn refuses_what_is_no_text(rt: HostRuntime) -> Result<(), Fail> {
    let heap = rt.alloc();
    refused(
        &rt,
        heap,
        "up # \u{1}",
        "1:6: expected text, found the byte 1",
    )?;
    refused(
        &rt,
        heap,
        "up\r\nr1\r = 1",
        "2:3: expected text, found the byte 13",
    )?;
    refused(
        &rt,
        heap,
        "up\nr1 = é",
        "2:6: expected text, found the byte 195",
    )?;
    match reading::read(heap, b"up\n# \xff\n") {
        Ok(_) => Err(Fail::new("it is read")),
        Err(fault) => {
            let told = format!(in heap; "{fault}")?;
            assert!(rt; told.as_str() == "2:3: expected text, found the byte 255");
            Ok(())
        }
    }
}

#[test]
fn prints_in_columns(rt: HostRuntime) -> Result<(), Fail> {
    let heap = rt.alloc();
    printed(
        &rt,
        heap,
        "# Col Bas: both want to go\n\nup|down\r\nr0=1|r0 = 1\n[a]=r0 | [b] = r0\n\tr1 = [b] | r1 = [a] # é\n | fence",
        "up       | down\nr0 = 1   | r0 = 1\n[a] = r0 | [b] = r0\nr1 = [b] | r1 = [a]\n         | fence\n",
    )?;
    printed(&rt, heap, "alone", "alone\n")?;
    printed(
        &rt,
        heap,
        "a | b | c | d\n | r1 = r2 + r3\n[7] = r0",
        "a        | b            | c | d\n[7] = r0 | r1 = r2 + r3 |   |\n",
    )?;
    printed(
        &rt,
        heap,
        "up\nr0=0\nr0=1\nr0=9\nr0=10\nr0=15\nfence\nfence\nfence\n",
        "up\nr0 = 0\nr0 = 1\nr0 = 9\nr0 = 10\nr0 = 15\nfence\nfence\nfence\n",
    )
}

// Fences put in may make a thread longer than eight.
#[test]
fn prints_longer_threads(rt: HostRuntime) -> Result<(), Fail> {
    let heap = rt.alloc();
    let mut source = reading::parse(
        heap,
        "up\nfence\nfence\nfence\nfence\nfence\nfence\nfence\nfence",
    )?;
    assert!(rt; source.threads.len() == 1);
    source.threads[0].code.push(Instruction::Fence)?;
    let told = printing::print(heap, &source)?;
    assert!(rt;
        told.as_str() == "up\nfence\nfence\nfence\nfence\nfence\nfence\nfence\nfence\nfence\n"
    );
    Ok(())
}
