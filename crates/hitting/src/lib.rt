// Sets of bits in a u32, and the search through them for the sets with few bits that meet every clause.
#![tactic(auto)]

ghost use Rattle.hitting.specs.Theorems.{Theorems};

pub mod candidates;
pub mod clauses;

// The theorems about sets of bits, for its contract: the crate is refused without their proofs.
pub fn theorems_hold() -> bool
    ensures { Theorems }
{
    true
}
