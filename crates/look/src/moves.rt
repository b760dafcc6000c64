// A run as a table: a line a move in the columns of the threads, and which stores wait behind it.
// How far each thread is follows from the moves alone: its instructions are done in their order, and its stores go to
// memory in theirs.
use cli::troubles::Trouble;
use machine::moves::Move;
use program::instructions::{Instruction, Place};
use std::alloc::{AllocError, Global};
use text::printing;
use text::source::{Source, Thread};

// The names of a program's places, and memory for what is printed with them.
#[derive(Clone, Copy)]
struct Names<'a> {
    heap: Global,
    places: &'a [String],
}

// The column of a thread: how many of its instructions are done, and how many of its stores are in memory.
#[derive(Drop)]
struct Column<'a> {
    names: Names<'a>,
    number: usize,
    thread: &'a Thread,
    width: usize,
    done: usize,
    out: usize,
}

// The place that an instruction stores to, if it is a store.
fn stored(i: &Instruction) -> Option<Place> {
    match *i {
        Instruction::Store(place, _) => Some(place),
        _ => None,
    }
}

impl Names<'_> {
    // An instruction, as it stands in a cell.
    fn next_text(self, i: Instruction) -> Result<String, AllocError> {
        printing::cell_text(self.heap, self.places, i)
    }

    // A store on its way, as it stands in a cell.
    fn out_text(self, place: Place) -> Result<String, AllocError> {
        let name = printing::place(self.heap, self.places, place)?;
        format!(in self.heap; "[{name}] to memory")
    }

    // The width of a thread's column.
    fn width(self, thread: &Thread) -> Result<usize, AllocError> {
        let mut most = thread.name.len();
        for i in &thread.code {
            most = most.max(self.next_text(*i)?.len());
            if let Some(place) = stored(i) {
                most = most.max(self.out_text(place)?.len());
            }
        }
        Ok(most)
    }
}

// Adds a cell, with a blank before it where it is not the first, and the column's end behind it. A cell of an outcome stands
// at the right, with no such end: as one function they would take all that parts them as parameters.
fn push_cell(line: &mut String, cell: &str, width: usize) -> Result<(), AllocError> {
    let blank = if line.is_empty() { "" } else { " " };
    write!(line, "{blank}{cell:<width$} |")
}

impl<'a> Column<'a> {
    fn new(names: Names<'a>, number: usize, thread: &'a Thread) -> Result<Column<'a>, AllocError> {
        Ok(Column {
            names,
            number,
            thread,
            width: names.width(thread)?,
            done: 0,
            out: 0,
        })
    }

    // Does the thread's next instruction, and says what it is.
    fn make_next(&mut self) -> Result<String, AllocError> {
        let next = self.thread.code.get(self.done);
        self.done = self.done.saturating_add(1);
        match next {
            Some(i) => self.names.next_text(*i),
            None => Ok(String::new(self.names.heap)),
        }
    }

    // Lets the oldest of the thread's waiting stores go to memory, and says which it is.
    fn make_out(&mut self) -> Result<String, AllocError> {
        let oldest = self.thread.code.iter().filter_map(stored).nth(self.out);
        self.out = self.out.saturating_add(1);
        match oldest {
            Some(place) => self.names.out_text(place),
            None => Ok(String::new(self.names.heap)),
        }
    }

    // Makes the move if it is the thread's, and says what it is; nothing if it is another's.
    fn make(&mut self, m: Move) -> Result<String, AllocError> {
        match m {
            Move::Next(by) if by.0 as usize == self.number => self.make_next(),
            Move::Out(by) if by.0 as usize == self.number => self.make_out(),
            _ => Ok(String::new(self.names.heap)),
        }
    }

    // Adds the places that the thread's stores wait for, oldest first, behind its name.
    fn push_waiting(&self, line: &mut String) -> Result<(), AllocError> {
        let done = self.thread.code.iter().take(self.done);
        for (k, place) in done.filter_map(stored).skip(self.out).enumerate() {
            if k == 0 {
                line.push_str(" ")?;
                line.push_str(self.thread.name.as_str())?;
            }
            let name = printing::place(self.names.heap, self.names.places, place)?;
            write!(line, " [{name}]")?;
        }
        Ok(())
    }
}

fn heading(heap: Global, columns: &[Column<'_>]) -> Result<String, AllocError> {
    let mut line = String::new(heap);
    for column in columns {
        push_cell(&mut line, column.thread.name.as_str(), column.width)?;
    }
    line.push_str(" waiting")?;
    Ok(line)
}

// Makes the move, and tells it in a line.
fn line(heap: Global, columns: &mut [Column<'_>], m: Move) -> Result<String, AllocError> {
    let mut line = String::new(heap);
    let mut waiting = String::new(heap);
    for column in columns.iter_mut() {
        let cell = column.make(m)?;
        column.push_waiting(&mut waiting)?;
        push_cell(&mut line, cell.as_str(), column.width)?;
    }
    line.push_str(waiting.as_str())?;
    Ok(line)
}

// Prints a run, told as a thread's number for its next instruction and 4 more for its oldest store going to memory.
pub fn print(rt: &HostRuntime, source: &Source, moves: &[u32]) -> Result<(), Trouble> {
    let heap = rt.alloc();
    let names = Names {
        heap,
        places: source.places.as_slice(),
    };
    let mut columns = Vec::new(heap);
    for (number, thread) in source.threads.iter().enumerate() {
        columns.push(Column::new(names, number, thread)?)?;
    }
    rt.println(heading(heap, columns.as_slice())?)?;
    for m in moves {
        let m = Move::numbered(4, *m);
        rt.println(line(heap, columns.as_mut_slice(), m)?)?;
    }
    Ok(())
}
