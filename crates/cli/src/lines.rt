// Programs as words, one to a line of standard input. A line has at most `LONGEST` bytes, so that what is held does not
// grow with the input.
ghost use Rattle.std.specs.Prelude.{◌≡◌, ◌-◌};
ghost use Rattle.std.specs.Iterator.{at_most};

use crate::troubles::Trouble;
use crate::{input, numbers};
use std::alloc::Global;
use std::io::{BufRead, BufReader, ErrorKind, Read, Stdin, Take};

// More than any program's words take, with a blank between each two.
const LONGEST: usize = 4096;

// So far a line is read: one byte more, so that a longer one is told apart.
const LIMIT: u64 = LONGEST as u64 + 1;

// The words of each line in turn, or why a line is refused.
#[derive(Drop)]
pub struct Lines {
    heap: Global,
    reader: Take<BufReader<Stdin>>,
    // the number of the line that was asked for last
    pub number: u64,
}

impl Lines {
    pub fn new(rt: &HostRuntime) -> Result<Lines, Trouble> {
        // all that can fail here is to get the buffer's memory
        let reader = BufReader::new(rt.alloc(), rt.stdin()).map_err(|_e| Trouble::Memory)?;
        Ok(Lines {
            heap: rt.alloc(),
            reader: reader.take(LIMIT),
            number: 0,
        })
    }

    // The next line without its end, if there is one.
    fn line(&mut self) -> Result<Option<Vec<u8>>, Trouble>
        ensures { self.new.number ≡ self.old.number }
    {
        let mut line = Vec::new(self.heap);
        self.reader.set_limit(LIMIT);
        match self.reader.read_until(b'\n', &mut line) {
            Ok(0) => return Ok(None),
            Ok(_) => {}
            Err(error) if error.kind() == ErrorKind::OutOfMemory => return Err(Trouble::Memory),
            Err(error) => return Err(Trouble::Unreadable {
                file: input::name(self.heap, &None)?,
                error,
            }),
        }
        if line.last() == Some(&b'\n') {
            line.pop();
        } else if line.len() > LONGEST {
            return Err(Trouble::LongLine { line: self.number });
        }
        Ok(Some(line))
    }

    // The words of the next line, if there is one.
    fn words(&mut self) -> Result<Option<Vec<u32>>, Trouble>
        ensures { self.new.number ≡ self.old.number }
    {
        match self.line()? {
            Some(line) => Ok(Some(numbers::parse(self.heap, self.number, line.as_slice())?)),
            None => Ok(None),
        }
    }
}

impl Iterator for Lines {
    type Item = Result<Vec<u32>, Trouble>;

    // there are no more than a word of 64 bits counts
    ghost remaining = { λ s. at_most (18446744073709551615 - s.number) };

    fn next(&mut self) -> Option<Result<Vec<u32>, Trouble>> {
        self.number = self.number.checked_add(1)?;
        self.words().transpose()
    }
}
