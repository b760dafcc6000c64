// The outcomes of a program as a table, under its own names.
use crate::listing::lent;
use crate::rows;
use crate::rows::Row;
use cli::input::Input;
use cli::shown;
use cli::shown::Shown;
use cli::troubles::{Trouble, Wanted, Why};
use fences::listing::Listing;
use std::alloc::{AllocError, Global};
use std::fmt::Display;
use text::source::Source;
use text::words;

// Adds a cell as wide as its title, two blanks before it. A cell of a run stands at the left, with the column's end behind it:
// as one function they would take all that parts them as parameters.
fn push_cell<T: Display + Drop>(line: &mut String, cell: T, title: &str) -> Result<(), AllocError> {
    let width = title.len();
    write!(line, "  {cell:>width$}")
}

// The line of titles.
fn heading(heap: Global, columns: &[Shown]) -> Result<String, AllocError> {
    let mut line = String::new(heap);
    for column in columns {
        let title = column.title.as_str();
        push_cell(&mut line, title, title)?;
    }
    Ok(line)
}

// The line of an outcome, with a mark behind it where it only comes out with waiting stores.
fn line(heap: Global, columns: &[Shown], row: &Row<'_>) -> Result<String, AllocError> {
    let mut line = String::new(heap);
    for column in columns {
        let value = row.values.get(column.at).copied().unwrap_or(0);
        push_cell(&mut line, value, column.title.as_str())?;
    }
    line.push_str(if row.at_once { "" } else { "  *" })?;
    Ok(line)
}

// `1 state`, `2 states`.
fn counted(heap: Global, n: usize, noun: &str) -> Result<String, AllocError> {
    if n == 1 {
        return format!(in heap; "1 {noun}");
    }
    format!(in heap; "{n} {noun}s")
}

fn summary(heap: Global, all: usize, waiting: usize, states: usize) -> Result<String, AllocError> {
    let at_once = all.saturating_sub(waiting);
    let all = counted(heap, all, "outcome")?;
    let states = counted(heap, states, "state")?;
    format!(in heap; "{all}: {at_once} at once, {waiting} only with waiting stores (*); {states}")
}

fn print_table(
    rt: &HostRuntime,
    source: &Source,
    rows: &[Row<'_>],
    states: usize,
) -> Result<(), Trouble> {
    let heap = rt.alloc();
    let columns = shown::of_program(heap, source)?;
    rt.println(heading(heap, columns.as_slice())?)?;
    for row in rows {
        rt.println(line(heap, columns.as_slice(), row)?)?;
    }
    let waiting = rows.iter().filter(|row| !row.at_once).count();
    rt.println("")?;
    rt.println(summary(heap, rows.len(), waiting, states)?)?;
    Ok(())
}

// Prints all outcomes of a program.
pub fn answer(rt: &HostRuntime, input: Input) -> Result<(), Trouble> {
    let heap = rt.alloc();
    let Input { name, source } = input;
    let words = words::to_words(heap, &source)?;
    let mut lent = lent(heap)?;
    match lent.outcomes(words.as_slice()) {
        Ok(Listing { outcomes, states }) => {
            let threads = words.first().copied().unwrap_or(0);
            let rows = rows::sorted(heap, lent.out.as_slice(), threads, outcomes)?;
            print_table(rt, &source, rows.as_slice(), states)
        }
        Err(refusal) => Err(Trouble::Unanswered {
            file: name,
            why: Why {
                refusal,
                wanted: Wanted::Outcomes,
            },
        }),
    }
}
