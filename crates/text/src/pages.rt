// A text read line by line, from left to right, onto a page of what has been read so far.
ghost use Rattle.std.specs.Prelude.{◌≡◌, ◌<◌, map, vec_len};
ghost use Rattle.std.proofs.Math.Option.{some, none};
ghost use Rattle.model.specs.Code.{opt};
ghost use Rattle.text.specs.Answers.{Answers};
ghost use Rattle.text.specs.Bytes.{no_cr, pieces, has};
ghost use Rattle.text.specs.Grammar.{names, does, cell, row, begins, each, content, line, blank_page, whole};
ghost use Rattle.text.specs.Meaning.{token, places, column, page, listing, option};

use crate::bytes::Kind;
use crate::faults::{Expected, Fault, Spot};
use crate::pieces::Piece;
use crate::places::{Places, Words};
use crate::source::{Source, Thread};
use crate::{cells, tokens};
use std::alloc::Global;

// A program has one to four threads of at most eight instructions.
const MOST_THREADS: usize = 4;

const MOST_INSTRUCTIONS: usize = 8;

#[derive(Drop)]
pub struct Page {
    pub threads: Vec<Thread>,
    pub places: Places,
}

// A cell of a thread: no tokens say nothing, others are an instruction more.
fn does(
    heap: Global,
    named: &mut Places,
    thread: &mut Thread,
    tokens: &[Piece<'_>],
    end: Spot,
) -> Result<(), Fault>
    ensures { Answers result (λ _. (places named.new, column thread.new)) (does (places named.old) (column thread.old) (map token tokens.now)) }
{
    let Some(first) = tokens.first() else {
        return Ok(());
    };
    if thread.code.len() >= MOST_INSTRUCTIONS {
        return Err(first.fault(heap, Expected::EightInstructions));
    }
    let instruction = cells::instruction(heap, named, tokens, end)?;
    thread.code.push(instruction)?;
    Ok(())
}

// A line without the CR that it may end in.
fn without_cr(line: Piece<'_>) -> Piece<'_>
    ensures { token result ≡ no_cr (token line.entry) }
{
    match line.text {
        [text @ .., b'\r'] => Piece {
            text,
            spot: line.spot,
        },
        _ => line,
    }
}

impl Page {
    // Where nothing has been read yet.
    pub(crate) fn blank(heap: Global) -> Page
        ensures { page result ≡ blank_page }
    {
        Page {
            threads: Vec::new(heap),
            places: Places::Words(Words {
                all: Vec::new(heap),
            }),
        }
    }

    // A cell of thread `k`.
    fn cell(&mut self, heap: Global, k: usize, piece: Piece<'_>) -> Result<(), Fault>
        requires { k < vec_len self.old.threads }
        ensures { Answers result (λ _. page self.new) (cell k (page self.old) (token piece.entry)) }
    {
        let tokens = tokens::tokens(heap, piece)?;
        does(
            heap,
            &mut self.places,
            &mut self.threads[k],
            tokens.as_slice(),
            piece.end(),
        )?;
        Ok(())
    }

    // A line of cells.
    fn row(&mut self, heap: Global, content: Piece<'_>) -> Result<(), Fault>
        ensures { Answers result (λ _. page self.new) (row 0 (page self.old) (pieces 124 (token content.entry))) }
    {
        let mut bar = content.spot;
        for (k, cell) in content.split(b'|').enumerate() {
            if k >= self.threads.len() {
                return Err(bar.fault(heap, Expected::LineEnd, b"|"));
            }
            self.cell(heap, k, cell)?;
            bar = cell.end();
        }
        Ok(())
    }

    // Whether a thread has this name.
    fn has(&self, name: Piece<'_>) -> bool
        ensures { result ≡ has (token name.entry) (names (page self.now).columns) }
    {
        self.threads
            .iter()
            .any(|thread| name.is(thread.name.as_bytes()))
    }

    // One thread more, of this name.
    fn begin(&mut self, heap: Global, cell: Piece<'_>) -> Result<(), Fault>
        ensures { Answers result (λ _. page self.new) (begins (page self.old) (token cell.entry)) }
    {
        let tokens = tokens::tokens(heap, cell)?;
        let word = match tokens.as_slice() {
            [word] => *word,
            [_, next, ..] => return Err(next.fault(heap, Expected::NameEnd)),
            [] => return Err(cell.spot.fault(heap, Expected::ThreadName, b"")),
        };
        if !word.is_word() {
            return Err(word.fault(heap, Expected::ThreadName));
        }
        if self.has(word) {
            return Err(word.fault(heap, Expected::NewThreadName));
        }
        if self.threads.len() >= MOST_THREADS {
            return Err(word.fault(heap, Expected::FourThreads));
        }
        let name = String::from_utf8_lossy(heap, word.text)?;
        self.threads.push(Thread {
            name,
            code: Vec::new(heap),
        })?;
        Ok(())
    }

    // The line that names the threads.
    fn heading(&mut self, heap: Global, content: Piece<'_>) -> Result<(), Fault>
        ensures { Answers result (λ _. page self.new) (each begins (page self.old) (pieces 124 (token content.entry))) }
    {
        for cell in content.split(b'|') {
            self.begin(heap, cell)?;
        }
        Ok(())
    }

    // What stands in a line before a comment.
    fn content(&mut self, heap: Global, piece: Piece<'_>) -> Result<(), Fault>
        ensures { Answers result (λ _. page self.new) (content (page self.old) (token piece.entry)) }
    {
        if Kind::Blank.all(piece.text) {
            return Ok(());
        }
        if self.threads.is_empty() {
            self.heading(heap, piece)
        } else {
            self.row(heap, piece)
        }
    }

    fn line(&mut self, heap: Global, piece: Piece<'_>) -> Result<(), Fault>
        ensures { Answers result (λ _. page self.new) (line (page self.old) (token piece.entry)) }
    {
        let line = without_cr(piece);
        let plain = Kind::Plain.run(line.text);
        if plain < line.text.len() {
            return Err(line.behind(plain).front(1).fault(heap, Expected::Text));
        }
        self.content(heap, line.front(Kind::But(b'#').run(line.text)))
    }

    // Every line of a text.
    pub fn lines(&mut self, heap: Global, text: &[u8]) -> Result<(), Fault>
        ensures { Answers result (λ _. page self.new) (each line (page self.old) (pieces 10 text.now)) }
    {
        for line in Piece::whole(text).split(b'\n') {
            self.line(heap, line)?;
        }
        Ok(())
    }

    // The program on a page, once its threads are named.
    pub(crate) fn whole(self, heap: Global) -> Option<Source>
        ensures { opt (option result) none (λ s. some (listing s)) ≡ whole (page self) }
    {
        if self.threads.is_empty() {
            return None;
        }
        Some(Source {
            threads: self.threads,
            places: match self.places {
                Places::Numerals => Vec::new(heap),
                Places::Words(words) => words.all,
            },
        })
    }
}
