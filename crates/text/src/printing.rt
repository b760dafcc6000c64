// A program with its names as text, lined up in columns. Threads may be of any length; what is within the limits is read
// back as it was.
ghost use Rattle.std.specs.Prelude.{◌≡◌, ◌+◌, ◌-◌, ◌*◌, ◌<◌, ◌≤◌, max, ◌&&◌, ◌++◌, map, length, replicate, IfOk, vec_len, string_bytes, string_len, OnOk};
ghost use Rattle.program.specs.Instructions.{instruction};
ghost use Rattle.text.specs.Meaning.{words, column, listing};
ghost use Rattle.text.specs.Shows.{show_place, show_i, show_cell, width, show_line, height, show_lines, shows};
ghost use Rattle.text.specs.Bytes.{empty};
ghost use Rattle.text.specs.Fine.{Fine};
ghost use Rattle.text.specs.Grammar.{Column, reads};
ghost use Rattle.std.proofs.Math.Option.{some};
ghost use Rattle.text.specs.Parts.{gap, behind, part};

use crate::source::{Source, Thread};
use program::instructions::{Instruction, Place, Register};
use std::alloc::{AllocError, Global};
use std::iter::repeat_n;

// A place by its name, or by its numeral where it has none.
pub fn place(heap: Global, names: &[String], x: Place) -> Result<String, AllocError>
    ensures { IfOk result (λ s. string_bytes s ≡ show_place (words names.now) x.0) }
{
    let Place(x) = x;
    match names.get(x as usize) {
        Some(name) => String::from_str(heap, name.as_str()),
        None => format!(in heap; "{x}"),
    }
}

// An instruction as it stands in a cell.
pub fn cell_text(heap: Global, names: &[String], i: Instruction) -> Result<String, AllocError>
    ensures { IfOk result (λ s. string_bytes s ≡ show_i (words names.now) (instruction i)) }
{
    match i {
        Instruction::Set(Register(r), n) => format!(in heap; "r{r} = {n}"),
        Instruction::Add(Register(r), Register(a), Register(b)) => {
            format!(in heap; "r{r} = r{a} + r{b}")
        }
        Instruction::Load(Register(r), x) => {
            let x = place(heap, names, x)?;
            format!(in heap; "r{r} = [{x}]")
        }
        Instruction::Store(x, Register(r)) => {
            let x = place(heap, names, x)?;
            format!(in heap; "[{x}] = r{r}")
        }
        Instruction::Fence => String::from_str(heap, "fence"),
    }
}

// The blank before column `k`.
fn put_gap(out: &mut String, k: usize, nothing: bool) -> Result<(), AllocError>
    ensures { OnOk result (string_bytes out.new ≡ string_bytes out.old ++ gap k nothing) }
{
    if k == 0 || nothing {
        Ok(())
    } else {
        out.push(' ')
    }
}

fn put_blanks(out: &mut String, blanks: usize) -> Result<(), AllocError>
    ensures { OnOk result (string_bytes out.new ≡ string_bytes out.old ++ replicate blanks 32) }
{
    out.extend(repeat_n(' ', blanks))
}

// What stands behind a cell.
fn put_behind(out: &mut String, last: bool, blanks: usize) -> Result<(), AllocError>
    ensures { OnOk result (string_bytes out.new ≡ string_bytes out.old ++ behind last blanks) }
{
    if last {
        return Ok(());
    }
    put_blanks(out, blanks)?;
    out.push_str(" |")?;
    Ok(())
}

// Whether nothing follows in a line: an empty cell in the last column.
fn ends(last: bool, text: &[u8]) -> bool
    ensures { result ≡ (last && empty text.now) }
{
    last && text.is_empty()
}

// The names of a program's places, and memory for what is printed with them.
#[derive(Clone, Copy)]
struct Names<'a> {
    heap: Global,
    places: &'a [String],
}

impl Names<'_> {
    // The cell of line `j` in a thread's column: its name in line 0, else an instruction or nothing.
    fn cell(self, thread: &Thread, j: usize) -> Result<String, AllocError>
        ensures { IfOk result (λ s. string_bytes s ≡ show_cell (words self.entry.places.now) (column thread.now) j) }
    {
        let Some(row) = j.checked_sub(1) else {
            return String::from_str(self.heap, thread.name.as_str());
        };
        match thread.code.get(row) {
            Some(i) => cell_text(self.heap, self.places, *i),
            None => Ok(String::new(self.heap)),
        }
    }

    // The width of a thread's column.
    fn width(self, thread: &Thread) -> Result<usize, AllocError>
        ensures { IfOk result (λ w. w ≡ width (words self.entry.places.now) (column thread.now)) }
    {
        let mut most = thread.name.len();
        for i in &thread.code {
            most = most.max(cell_text(self.heap, self.places, *i)?.len());
        }
        Ok(most)
    }

    // Column `k` of line `j`.
    fn put_part(
        self,
        out: &mut String,
        thread: &Thread,
        j: usize,
        k: usize,
        last: bool,
    ) -> Result<(), AllocError>
        ensures { OnOk result (string_bytes out.new ≡ string_bytes out.old ++ part (words self.entry.places.now) j k last (column thread.now)) }
    {
        let text = self.cell(thread, j)?;
        let width = self.width(thread)?;
        put_gap(out, k, ends(last, text.as_bytes()))?;
        out.push_str(text.as_str())?;
        put_behind(out, last, width.saturating_sub(text.len()))?;
        Ok(())
    }

    // Line `j`.
    fn put_line(self, out: &mut String, threads: &[Thread], j: usize) -> Result<(), AllocError>
        ensures { OnOk result (string_bytes out.new ≡ string_bytes out.old ++ show_line (words self.entry.places.now) j (map column threads.now)) }
    {
        for (k, thread) in threads.iter().enumerate() {
            self.put_part(out, thread, j, k, k + 1 == threads.len())?;
        }
        Ok(())
    }

    // The lines below the first.
    fn put_rows(self, out: &mut String, threads: &[Thread], rows: usize) -> Result<(), AllocError>
        ensures { OnOk result (string_bytes out.new ≡ string_bytes out.old ++ show_lines (record { columns = map column threads.now; places = words self.entry.places.now }) 1 rows) }
    {
        // By number, since a row is no thing of its own: it has an instruction of each thread that is so long.
        for j in 0..rows {
            self.put_line(out, threads, j + 1)?;
            out.push_str("\n")?;
        }
        Ok(())
    }
}

// How many instructions the longest thread has.
fn height_of(threads: &[Thread]) -> usize
    ensures { result ≡ height (map (λ (t : Column). t.code) (map column threads.now)) }
{
    threads
        .iter()
        .fold(0, |most, thread| thread.code.len().max(most))
}

// The text of a program with its names.
pub fn print(heap: Global, source: &Source) -> Result<String, AllocError>
    ensures text { IfOk result (λ s. string_bytes s ≡ shows (listing source.now)) }
    ensures back { IfOk result (λ s. Fine (listing source.now) → reads (string_bytes s) ≡ some (listing source.now)) }
{
    let names = Names {
        heap,
        places: source.places.as_slice(),
    };
    let threads = source.threads.as_slice();
    let mut out = String::new(heap);
    names.put_line(&mut out, threads, 0)?;
    out.push_str("\n")?;
    names.put_rows(&mut out, threads, height_of(threads))?;
    Ok(out)
}
