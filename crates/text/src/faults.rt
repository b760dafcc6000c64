// Why a text is refused, and where: `line:column: expected .., found ..`. Lines and columns count from 1, and columns
// count bytes. Before a fault in a line there is only ASCII, unless the fault stands in a comment.
ghost use Rattle.std.specs.Prelude.{◌≡◌};
ghost use Rattle.text.specs.declared.faults.Fault.TheVariants.{Memory};

use std::alloc::{AllocError, AllocFailed, Global};
use std::fmt;

#[derive(Debug, Drop)]
pub enum Fault {
    // want of memory, which is no fault of the text
    Memory,
    Refused {
        line: usize,
        column: usize,
        expected: Expected,
        found: Found,
    },
}

#[derive(Clone, Copy, Debug)]
pub enum Expected {
    Text,
    ThreadName,
    NewThreadName,
    FourThreads,
    LineEnd,
    NameEnd,
    EightInstructions,
    Instruction,
    Assign,
    Right,
    Plus,
    Close,
    CellEnd,
    Register,
    Number,
    Place,
    Numeral,
    PlaceWord,
    EightPlaces,
}

#[derive(Debug, Drop)]
pub enum Found {
    CellEnd,
    TextEnd,
    Byte(u8),
    Text(String),
}

// Two impls, as `?` converts once: from what a call of std gives, with or without what could not be stored.
impl From<AllocError> for Fault {
    ghost from_gives = { λ _ r. r ≡ Memory };

    fn from(_e: AllocError) -> Fault {
        Fault::Memory
    }
}

impl<T: Drop> From<AllocFailed<T>> for Fault {
    ghost from_gives = { λ _ r. r ≡ Memory };

    fn from(_e: AllocFailed<T>) -> Fault {
        Fault::Memory
    }
}

// A place in the text.
#[derive(Clone, Copy)]
pub struct Spot {
    pub line: usize,
    pub column: usize,
}

impl Spot {
    // Where a text begins.
    pub(crate) const START: Spot = Spot { line: 1, column: 1 };

    // So many bytes on. Past the largest number it stays there: it only tells where.
    pub fn on(self, bytes: usize) -> Spot {
        Spot {
            line: self.line,
            column: self.column.saturating_add(bytes),
        }
    }

    // Behind this byte, which stands here.
    pub(crate) fn after(self, b: u8) -> Spot {
        if b == b'\n' {
            Spot {
                line: self.line.saturating_add(1),
                column: 1,
            }
        } else {
            self.on(1)
        }
    }

    // Past these bytes, which begin here.
    pub(crate) fn past(self, bytes: &[u8]) -> Spot {
        bytes.iter().fold(self, |spot, b| spot.after(*b))
    }

    pub(crate) fn refused(self, expected: Expected, found: Found) -> Fault {
        Fault::Refused {
            line: self.line,
            column: self.column,
            expected,
            found,
        }
    }

    // What was found here instead of what was expected: these bytes, or none where the cell ends.
    pub fn fault(self, heap: Global, expected: Expected, bytes: &[u8]) -> Fault {
        match Found::of(heap, bytes) {
            Ok(found) => self.refused(expected, found),
            Err(e) => Fault::from(e),
        }
    }
}

impl Found {
    fn of(heap: Global, bytes: &[u8]) -> Result<Found, AllocError> {
        Ok(match bytes {
            [] => Found::CellEnd,
            [b @ (0..=32 | 127..=255)] => Found::Byte(*b),
            _ => Found::Text(String::from_utf8_lossy(heap, bytes)?),
        })
    }
}

impl Expected {
    fn words(self) -> &'static str {
        match self {
            Expected::Text => "text",
            Expected::ThreadName => "the name of a thread",
            Expected::NewThreadName => "the name of another thread",
            Expected::FourThreads => "at most four threads",
            Expected::LineEnd => "the end of the line",
            Expected::NameEnd => "`|` or the end of the line",
            Expected::EightInstructions => "at most eight instructions in a thread",
            Expected::Instruction =>
                "`r1 = 7`, `r1 = r2 + r3`, `r1 = [place]`, `[place] = r1` or `fence`",
            Expected::Assign => "`=`",
            Expected::Right => "a number, a register or `[`",
            Expected::Plus => "`+` or the end of the cell",
            Expected::Close => "`]`",
            Expected::CellEnd => "the end of the cell",
            Expected::Register => "a register r0 to r3",
            Expected::Number => "a number 0 to 15",
            Expected::Place => "a place",
            Expected::Numeral => "a place 0 to 7",
            Expected::PlaceWord => "a place named by a word",
            Expected::EightPlaces => "at most eight places",
        }
    }
}

impl fmt::Display for Expected {
    fn fmt<W: fmt::Write>(&self, f: &mut fmt::Formatter<W>) -> fmt::Result {
        f.write_str(self.words())
    }
}

impl fmt::Display for Found {
    fn fmt<W: fmt::Write>(&self, f: &mut fmt::Formatter<W>) -> fmt::Result {
        match self {
            Found::CellEnd => f.write_str("the end of the cell"),
            Found::TextEnd => f.write_str("the end of the text"),
            Found::Byte(b) => {
                let b = *b;
                write!(f, "the byte {b}")
            }
            Found::Text(text) => write!(f, "`{text}`"),
        }
    }
}

impl fmt::Display for Fault {
    fn fmt<W: fmt::Write>(&self, f: &mut fmt::Formatter<W>) -> fmt::Result {
        match self {
            Fault::Memory => f.write_str("no memory"),
            Fault::Refused {
                line,
                column,
                expected,
                found,
            } => write!(f, "{line}:{column}: expected {expected}, found {found}"),
        }
    }
}
