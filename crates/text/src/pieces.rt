// Pieces of a text, with where they stand: lines, cells and tokens.
ghost use Rattle.std.specs.Prelude.{◌≡◌, ◌≤◌, length, take, drop};
ghost use Rattle.text.specs.Bytes.{word, same, pieces};
ghost use Rattle.text.specs.Kinds.{left, more};
ghost use Rattle.text.specs.Meaning.{token};

use crate::bytes::Kind;
use crate::faults::{Expected, Fault, Spot};
use std::alloc::Global;

#[derive(Clone, Copy)]
pub struct Piece<'a> {
    pub text: &'a [u8],
    pub spot: Spot,
}

impl<'a> Piece<'a> {
    // All of a text.
    pub(crate) fn whole(text: &'a [u8]) -> Piece<'a>
        ensures { token result ≡ text.now }
    {
        Piece {
            text,
            spot: Spot::START,
        }
    }

    // Whether it reads so.
    pub(crate) fn is(self, text: &[u8]) -> bool
        ensures { result ≡ same (token self.entry) text.now }
    {
        self.text == text
    }

    // Whether it is a word.
    pub(crate) fn is_word(self) -> bool
        ensures { result ≡ word (token self.entry) }
    {
        !self.text.is_empty() && Kind::Letter.all(self.text)
    }

    // Its first bytes.
    pub(crate) fn front(self, n: usize) -> Piece<'a>
        requires { n ≤ length (token self) }
        ensures { token result ≡ take n (token self.entry) }
    {
        Piece {
            text: &self.text[..n],
            spot: self.spot,
        }
    }

    // What stands behind so many bytes.
    pub(crate) fn behind(self, n: usize) -> Piece<'a>
        requires { n ≤ length (token self) }
        ensures { token result ≡ drop n (token self.entry) }
    {
        Piece {
            text: &self.text[n..],
            spot: self.spot.on(n),
        }
    }

    // Where it ends.
    pub(crate) fn end(self) -> Spot {
        self.spot.on(self.text.len())
    }

    // What was found here instead of what was expected.
    pub(crate) fn fault(self, heap: Global, expected: Expected) -> Fault {
        self.spot.fault(heap, expected, self.text)
    }

    // What stands between one byte `stop` and the next.
    pub(crate) fn split(self, stop: u8) -> Pieces<'a>
        ensures { left result ≡ pieces stop (token self.entry) }
    {
        Pieces {
            rest: Some(self.text),
            stop,
            spot: self.spot,
        }
    }
}

// The pieces that are left; none behind the last.
#[derive(Clone, Copy)]
pub struct Pieces<'a> {
    rest: Option<&'a [u8]>,
    stop: u8,
    spot: Spot,
}

impl<'a> Iterator for Pieces<'a> {
    ghost use Rattle.std.specs.Iterator.{YieldsFirstBy};

    type Item = Piece<'a>;

    ghost next_gives = { YieldsFirstBy token left };

    ghost remaining = { more };

    fn next(&mut self) -> Option<Piece<'a>> {
        let rest = self.rest?;
        let spot = self.spot;
        let n = Kind::But(self.stop).run(rest);
        self.rest = rest.get(n + 1..);
        self.spot = spot.on(n).after(self.stop);
        Some(Piece {
            text: &rest[..n],
            spot,
        })
    }
}
