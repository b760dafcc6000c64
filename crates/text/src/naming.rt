// The place that a name stands for.
ghost use Rattle.std.specs.Prelude.{◌≡◌, ◌<◌, true, map, length, IfSome};
ghost use Rattle.text.specs.Answers.{Answers};
ghost use Rattle.text.specs.Bytes.{index_of, word};
ghost use Rattle.text.specs.Grammar.{numeral, place, by_numeral, by_word};
ghost use Rattle.text.specs.Meaning.{words, places, named, token, option};

use crate::bytes::Kind;
use crate::faults::{Expected, Fault};
use crate::pieces::Piece;
use crate::places::{Places, Words};
use program::instructions::Place;
use std::alloc::Global;

// The number of a word among others.
fn index_of(all: &[String], word: Piece<'_>) -> Option<usize>
    ensures value { option result ≡ index_of (token word.entry) (words all.now) }
    ensures within { IfSome result (λ k. k < length all.now) }
{
    all.iter().position(|other| word.is(other.as_bytes()))
}

// 0 to 7.
fn numeral(heap: Global, name: Piece<'_>) -> Result<Place, Fault>
    ensures { Answers result (λ x. x.0) (numeral (token name.entry)) }
{
    match name.text {
        [b @ b'0'..=b'7'] => Ok(Place(u32::from(*b - b'0'))),
        _ => Err(name.fault(heap, Expected::Numeral)),
    }
}

impl Places {
    // The place of a name: of a numeral the place itself, of a word its number, which is the next one where the word
    // is new.
    pub fn place(&mut self, heap: Global, name: Piece<'_>) -> Result<Place, Fault>
        ensures { Answers result (λ x. (places self.new, x.0)) (place (places self.old) (token name.entry)) }
    {
        if !name.is_word() {
            return Err(name.fault(heap, Expected::Place));
        }
        if Kind::Digit.all(name.text) {
            self.by_numeral(heap, name)
        } else {
            self.by_word(heap, name)
        }
    }

    fn by_numeral(&mut self, heap: Global, name: Piece<'_>) -> Result<Place, Fault>
        ensures { Answers result (λ x. (places self.new, x.0)) (by_numeral (places self.old) (token name.entry)) }
    {
        if let Places::Words(words) = self
            && !words.all.is_empty()
        {
            return Err(name.fault(heap, Expected::PlaceWord));
        }
        let x = numeral(heap, name)?;
        *self = Places::Numerals;
        Ok(x)
    }

    fn by_word(&mut self, heap: Global, name: Piece<'_>) -> Result<Place, Fault>
        requires { word (token name) ≡ true }
        ensures { Answers result (λ x. (places self.new, x.0)) (by_word (places self.old) (token name.entry)) }
    {
        match self {
            Places::Numerals => Err(name.fault(heap, Expected::Numeral)),
            Places::Words(words) => words.place(heap, name),
        }
    }
}

impl Words {
    fn place(&mut self, heap: Global, name: Piece<'_>) -> Result<Place, Fault>
        requires { word (token name) ≡ true }
        ensures { Answers result (λ x. (named self.new, x.0)) (by_word (named self.old) (token name.entry)) }
    {
        if let Some(k) = index_of(self.all.as_slice(), name) {
            return Ok(Place(k as u32));
        }
        let next = self.all.len();
        if next == 8 {
            return Err(name.fault(heap, Expected::EightPlaces));
        }
        self.all.push(String::from_utf8_lossy(heap, name.text)?)?;
        Ok(Place(next as u32))
    }
}
