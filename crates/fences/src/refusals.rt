// Why a call has no answer.
use std::fmt;

#[derive(Clone, Copy, PartialEq, Eq, Debug)]
pub enum Refusal {
    // there are more states than are allowed, and than the lent words hold
    Crowded,
    // too few words to write the answer to
    OutFull,
    // the words are no program
    NoProgram,
    // too few words are lent
    Few,
}

impl fmt::Display for Refusal {
    fn fmt<W: fmt::Write>(&self, f: &mut fmt::Formatter<W>) -> fmt::Result {
        f.write_str(match self {
            Refusal::Crowded => "crowded",
            Refusal::OutFull => "out full",
            Refusal::NoProgram => "no program",
            Refusal::Few => "few",
        })
    }
}
