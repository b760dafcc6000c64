// A cell cut into its tokens: words as long as they go, and signs of one byte.
ghost use Rattle.std.specs.Prelude.{◌≡◌, map};
ghost use Rattle.text.specs.Answers.{Answers};
ghost use Rattle.text.specs.Bytes.{tokens};
ghost use Rattle.text.specs.Kinds.{BeginsToken};
ghost use Rattle.text.specs.Meaning.{token};

use crate::bytes::Kind;
use crate::faults::{Expected, Fault};
use crate::pieces::Piece;
use std::alloc::Global;

// How many bytes the first word or sign has; none where neither begins.
fn token_len(bytes: &[u8]) -> Option<usize>
    ensures { BeginsToken bytes.now result }
{
    match bytes {
        [b, ..] if Kind::Sign.has(*b) => Some(1),
        [b, ..] if Kind::Letter.has(*b) => Some(Kind::Letter.run(bytes)),
        _ => None,
    }
}

pub fn tokens<'a>(heap: Global, cell: Piece<'a>) -> Result<Vec<Piece<'a>>, Fault>
    ensures { Answers result (λ v. map token v.items) (tokens (token cell.entry)) }
{
    let mut found = Vec::new(heap);
    let mut rest = cell;
    while let Some(b) = rest.text.first() {
        if Kind::Blank.has(*b) {
            rest = rest.behind(1);
            continue;
        }
        let Some(n) = token_len(rest.text) else {
            return Err(rest.front(1).fault(heap, Expected::Text));
        };
        found.push(rest.front(n))?;
        rest = rest.behind(n);
    }
    Ok(found)
}
