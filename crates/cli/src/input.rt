// A program in columns, read from a file or from standard input.
use crate::troubles::Trouble;
use std::alloc::{AllocError, Global};
use std::fs::File;
use std::io;
use std::io::Read;
use text::faults::Fault;
use text::reading;
use text::source::Source;

// 64 KiB
const MOST: usize = 65_536;

// The bytes of a reader, and where there are more than `MOST`, one more than that.
fn bytes_of<R: Read + Drop>(heap: Global, reader: R) -> io::Result<Vec<u8>> {
    let mut bytes = Vec::new(heap);
    let mut reader = reader.take(MOST as u64 + 1);
    reader.read_to_end(&mut bytes)?;
    Ok(bytes)
}

fn file_bytes(rt: &HostRuntime, file: &str) -> io::Result<Vec<u8>> {
    bytes_of(rt.alloc(), File::open(rt, file)?)
}

// How messages name what is read.
pub fn name(heap: Global, file: &Option<String>) -> Result<String, AllocError> {
    match file {
        Some(file) => file.clone(),
        None => String::from_str(heap, "standard input"),
    }
}

// A program, and how messages name what it was read from.
#[derive(Drop)]
pub struct Input {
    pub name: String,
    pub source: Source,
}

// The program in the file, or in standard input where none is named.
pub fn read(rt: &HostRuntime, file: &Option<String>) -> Result<Input, Trouble> {
    let read = match file {
        Some(file) => file_bytes(rt, file.as_str()),
        None => bytes_of(rt.alloc(), rt.stdin()),
    };
    let name = name(rt.alloc(), file)?;
    let bytes = match read {
        Ok(bytes) => bytes,
        Err(error) => return Err(Trouble::Unreadable { file: name, error }),
    };
    if bytes.len() > MOST {
        return Err(Trouble::LongFile { file: name });
    }
    match reading::read(rt.alloc(), bytes.as_slice()) {
        Ok(source) => Ok(Input { name, source }),
        Err(Fault::Memory) => Err(Trouble::Memory),
        Err(fault) => Err(Trouble::Refused { file: name, fault }),
    }
}
