// What a program is asked to do by its arguments: `[--help | --to-words | --words] [FILE]`.
use crate::troubles::Trouble;
use std::env;

#[derive(Clone, Copy)]
pub enum Mode {
    // answer for a program in columns
    Answer,
    Help,
    // tell a program in columns as its words
    ToWords,
    // answer for programs as words, one to a line of standard input
    Words,
}

#[derive(Drop)]
pub struct Request {
    pub mode: Mode,
    // standard input where none is named
    pub file: Option<String>,
}

fn option(text: &str) -> Option<Mode> {
    match text {
        "--help" => Some(Mode::Help),
        "--to-words" => Some(Mode::ToWords),
        "--words" => Some(Mode::Words),
        _ => None,
    }
}

// The request with one more argument.
fn with(request: Request, argument: String) -> Result<Request, Trouble> {
    let Request { mode, file } = request;
    if !argument.as_str().starts_with('-') {
        return match file {
            Some(_) => Err(Trouble::Surplus(argument)),
            None => Ok(Request {
                mode,
                file: Some(argument),
            }),
        };
    }
    match (option(argument.as_str()), mode) {
        (None, _) => Err(Trouble::UnknownOption(argument)),
        (Some(mode), Mode::Answer) => Ok(Request { mode, file }),
        (Some(_), _) => Err(Trouble::Surplus(argument)),
    }
}

// What the arguments behind the program's own name ask for.
pub fn asked(rt: &HostRuntime) -> Result<Request, Trouble> {
    let mut request = Request {
        mode: Mode::Answer,
        file: None,
    };
    for argument in env::args(rt)?.skip(1) {
        request = with(request, argument)?;
    }
    if let (Mode::Words, Some(file)) = (request.mode, &request.file) {
        return Err(Trouble::Surplus(file.clone()?));
    }
    Ok(request)
}
