// Where the tokens of a cell are no instruction, and what was expected there. This only makes the message: that the
// tokens are no instruction is known before.
use crate::bytes::Kind;
use crate::faults::{Expected, Fault, Spot};
use crate::pieces::Piece;
use std::alloc::Global;

// What is to come in a cell.
#[derive(Clone, Copy)]
enum Due {
    Start,
    Assign,
    Right,
    Plus,
    Second,
    LoadPlace,
    LoadClose,
    StorePlace,
    StoreClose,
    StoreAssign,
    StoreRegister,
    End,
}

impl Due {
    // What is to come after this token; nothing where the token does not fit.
    fn after(self, token: &[u8]) -> Option<Due> {
        let word = Kind::Letter.all(token);
        Some(match (self, token) {
            (Due::Start, b"[") => Due::StorePlace,
            (Due::Start, _) if word => Due::Assign,
            (Due::Assign, b"=") => Due::Right,
            (Due::Right, b"[") => Due::LoadPlace,
            (Due::Right, _) if word => Due::Plus,
            (Due::Plus, b"+") => Due::Second,
            (Due::Second | Due::StoreRegister, _) if word => Due::End,
            (Due::LoadPlace, _) if word => Due::LoadClose,
            (Due::LoadClose, b"]") => Due::End,
            (Due::StorePlace, _) if word => Due::StoreClose,
            (Due::StoreClose, b"]") => Due::StoreAssign,
            (Due::StoreAssign, b"=") => Due::StoreRegister,
            _ => return None,
        })
    }

    fn expected(self) -> Expected {
        match self {
            Due::Start => Expected::Instruction,
            Due::Assign | Due::StoreAssign => Expected::Assign,
            Due::Right => Expected::Right,
            Due::Plus => Expected::Plus,
            Due::Second | Due::StoreRegister => Expected::Register,
            Due::LoadPlace | Due::StorePlace => Expected::Place,
            Due::LoadClose | Due::StoreClose => Expected::Close,
            Due::End => Expected::CellEnd,
        }
    }
}

// The fault of tokens that are no instruction: at the first one that does not fit, or at the end of the cell.
pub fn misfit(heap: Global, tokens: &[Piece<'_>], end: Spot) -> Fault {
    if let [only] = tokens {
        return only.fault(heap, Expected::Instruction);
    }
    let mut due = Due::Start;
    for token in tokens {
        let Some(next) = due.after(token.text) else {
            return token.fault(heap, due.expected());
        };
        due = next;
    }
    end.fault(heap, due.expected(), b"")
}
