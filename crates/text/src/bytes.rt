// Bytes by their kinds, and how far a run of one kind goes.
ghost use Rattle.std.specs.Prelude.{◌≡◌, ◌≤◌, length};
ghost use Rattle.text.specs.Bytes.{run, all};
ghost use Rattle.text.specs.Kinds.{test};

// An enum and no closures: a contract can name the test that it means.
#[derive(Clone, Copy)]
pub enum Kind {
    // letters, digits, `_` and `-`, which words are made of
    Letter,
    Digit,
    // a blank or a tab
    Blank,
    // one of `=`, `+`, `[` and `]`
    Sign,
    // what may stand in a line
    Plain,
    // any byte but this one
    But(u8),
}

impl Kind {
    pub fn has(self, b: u8) -> bool
        ensures { result ≡ test self b }
    {
        match self {
            Kind::Letter => matches!(b, b'a'..=b'z' | b'A'..=b'Z' | b'0'..=b'9' | b'_' | b'-'),
            Kind::Digit => matches!(b, b'0'..=b'9'),
            Kind::Blank => matches!(b, b' ' | b'\t'),
            Kind::Sign => matches!(b, b'=' | b'+' | b'[' | b']'),
            Kind::Plain => b == b'\t' || b >= b' ' && b != 127,
            Kind::But(stop) => b != stop,
        }
    }

    // How many bytes at the front are of this kind.
    pub fn run(self, bytes: &[u8]) -> usize
        ensures value { result ≡ run (test self) bytes.now }
        ensures within { result ≤ length bytes.now }
    {
        bytes.iter().take_while(|b| self.has(**b)).count()
    }

    // Whether each byte is of this kind.
    pub fn all(self, bytes: &[u8]) -> bool
        ensures { result ≡ all (test self) bytes.now }
    {
        bytes.iter().all(|b| self.has(*b))
    }
}
