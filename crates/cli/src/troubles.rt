// Why a program gives no answer. It says so on standard error, and ends with status 1.
ghost use Rattle.std.specs.Prelude.{◌≡◌, ◌↔◌, IsOk};
ghost use Rattle.std.specs.Process.{exit_status};

use fences::refusals::Refusal;
use std::alloc::{AllocError, AllocFailed};
use std::process::ExitCode;
use std::{fmt, io};
use text::faults::Fault;

#[derive(Drop)]
pub enum Trouble {
    Memory,
    UnknownOption(String),
    // an option or a file where one is given already, or a file where none is read
    Surplus(String),
    Unreadable { file: String, error: io::Error },
    Unwritable(io::Error),
    // a file of more than 64 KiB
    LongFile { file: String },
    // a text that is no program
    Refused { file: String, fault: Fault },
    // a line of standard input with more bytes than any program needs
    LongLine { line: u64 },
    // a byte where only numbers and blanks may stand
    NoNumber { line: u64, column: usize, byte: u8 },
    // a number that is no word
    LargeNumber { line: u64, column: usize },
    // a program for which the call that was to answer says why it does not
    Unanswered { file: String, why: Why },
}

// Why a call gives no answer for a program that could be read.
#[derive(Clone, Copy, PartialEq, Eq, Debug)]
pub struct Why {
    pub refusal: Refusal,
    pub wanted: Wanted,
}

// What the call was to write, told where there are too few words for it.
#[derive(Clone, Copy, PartialEq, Eq, Debug)]
pub enum Wanted {
    Verdict,
    Outcomes,
}

impl fmt::Display for Wanted {
    fn fmt<W: fmt::Write>(&self, f: &mut fmt::Formatter<W>) -> fmt::Result {
        f.write_str(match *self {
            Wanted::Verdict => "too few words for the answer",
            Wanted::Outcomes => "more outcomes than 4 MiB hold",
        })
    }
}

impl fmt::Display for Why {
    fn fmt<W: fmt::Write>(&self, f: &mut fmt::Formatter<W>) -> fmt::Result {
        let Why { refusal, wanted } = *self;
        match refusal {
            Refusal::Crowded => write!(f, "{refusal}: more states than 4 MiB hold"),
            Refusal::OutFull => write!(f, "{refusal}: {wanted}"),
            Refusal::NoProgram => write!(f, "{refusal}"),
            Refusal::Few => write!(f, "{refusal}: too little memory is lent"),
        }
    }
}

impl From<AllocError> for Trouble {
    fn from(_e: AllocError) -> Trouble {
        Trouble::Memory
    }
}

impl<T: Drop> From<AllocFailed<T>> for Trouble {
    fn from(_e: AllocFailed<T>) -> Trouble {
        Trouble::Memory
    }
}

// What fails by `?` is a write: reads name their file.
impl From<io::Error> for Trouble {
    fn from(e: io::Error) -> Trouble {
        Trouble::Unwritable(e)
    }
}

impl fmt::Display for Trouble {
    fn fmt<W: fmt::Write>(&self, f: &mut fmt::Formatter<W>) -> fmt::Result {
        match self {
            Trouble::Memory => f.write_str("no memory"),
            Trouble::UnknownOption(option) => write!(f, "unknown option `{option}`: see --help"),
            Trouble::Surplus(argument) => write!(
                f,
                "`{argument}` is one argument too many: see --help"
            ),
            Trouble::Unreadable { file, error } => write!(f, "{file}: {error}"),
            Trouble::Unwritable(error) => write!(f, "standard output: {error}"),
            Trouble::LongFile { file } => write!(f, "{file}: more than 65536 bytes"),
            Trouble::Refused { file, fault } => write!(f, "{file}:{fault}"),
            Trouble::LongLine { line } => write!(
                f,
                "standard input:{line}: more than 4096 bytes in a line"
            ),
            Trouble::NoNumber { line, column, byte } => write!(
                f,
                "standard input:{line}:{column}: expected a number, found the byte {byte}"
            ),
            Trouble::LargeNumber { line, column } => write!(
                f,
                "standard input:{line}:{column}: expected a number below 4294967296, found a larger one"
            ),
            Trouble::Unanswered { file, why } => write!(f, "{file}: {why}"),
        }
    }
}

// Says what went wrong, if anything did, and how the process is to end.
pub fn status(rt: &HostRuntime, outcome: Result<(), Trouble>) -> ExitCode
    ensures { exit_status result ≡ 0 ↔ IsOk outcome }
{
    match outcome {
        Ok(()) => ExitCode::SUCCESS,
        Err(trouble) => {
            // a message that can't be written can't be told either
            let _ = eprintln!(rt; "{trouble}");
            ExitCode::FAILURE
        }
    }
}
