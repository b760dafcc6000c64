// A text read: the program with its names that it says, or why it is refused.
ghost use Rattle.text.specs.Answers.{Answers, Reading};
ghost use Rattle.text.specs.Grammar.{reads};
ghost use Rattle.text.specs.Meaning.{listing};

use crate::faults::{Expected, Fault, Found, Spot};
use crate::pages::Page;
use crate::source::Source;
use std::alloc::Global;

// What a text says.
pub fn parse(heap: Global, text: &str) -> Result<Source, Fault>
    ensures { Answers result listing (reads text.now) }
{
    let bytes = text.as_bytes();
    let mut page = Page::blank(heap);
    page.lines(heap, bytes)?;
    page.whole(heap).ok_or_else(|| {
        Spot::START
            .past(bytes)
            .refused(Expected::ThreadName, Found::TextEnd)
    })
}

// What bytes say that may be no text at all.
pub fn read(heap: Global, bytes: &[u8]) -> Result<Source, Fault>
    ensures { Reading bytes.now result }
{
    match std::str::from_utf8(bytes) {
        Ok(text) => parse(heap, text),
        Err(e) => {
            let (text, rest) = bytes.split_at(e.valid_up_to());
            let found = rest.first().map_or(Found::TextEnd, |b| Found::Byte(*b));
            Err(Spot::START.past(text).refused(Expected::Text, found))
        }
    }
}
