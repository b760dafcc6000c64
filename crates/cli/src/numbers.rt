// Words as numbers in a line of text.
use crate::troubles::Trouble;
use std::alloc::{AllocError, Global};

// The numbers of a line with this number, which blanks part.
pub fn parse(heap: Global, line: u64, bytes: &[u8]) -> Result<Vec<u32>, Trouble> {
    let mut words = Vec::new(heap);
    let mut word = None;
    for (k, byte) in bytes.iter().enumerate() {
        let column = k + 1;
        match *byte {
            b @ b'0'..=b'9' => {
                let more = with_digit(word, b - b'0');
                word = Some(more.ok_or(Trouble::LargeNumber { line, column })?);
            }
            b' ' | b'\t' | b'\r' => words.extend(word.take())?,
            byte => return Err(Trouble::NoNumber { line, column, byte }),
        }
    }
    words.extend(word)?;
    Ok(words)
}

// The number with one more digit, if it is still a word.
fn with_digit(word: Option<u32>, digit: u8) -> Option<u32> {
    word.unwrap_or(0)
        .checked_mul(10)?
        .checked_add(u32::from(digit))
}

// Numbers in a line, with a blank between each two.
pub fn line(heap: Global, words: &[u32]) -> Result<String, AllocError> {
    let mut text = String::new(heap);
    for word in words {
        let blank = if text.is_empty() { "" } else { " " };
        write!(text, "{blank}{word}")?;
    }
    Ok(text)
}
