// A store that waits.
use program::instructions::Place;

#[derive(Clone, Copy, PartialEq, Eq, Debug)]
pub struct Store {
    pub place: Place,
    pub value: u32,
}
