// The row of waiting stores at work: what its thread reads, one store more, the oldest gone.
ghost use Rattle.std.specs.Prelude.{◌≡◌, ◌+◌, ◌<◌, ◌≤◌, List, [], ◌∷◌, ◌++◌, map, length};
ghost use Rattle.model.specs.Machine.{Wait, newest};
ghost use Rattle.machine.specs.Stores.{wait, AllSmall};
ghost use Rattle.machine.specs.Meaning.{waits};

use crate::rows::Row;
use crate::stores::Store;
use program::instructions::Place;

// What is read behind one more store: its number if it is to the place, else what was read before.
fn over(s: Store, place: Place, value: u32) -> u32
    ensures { result ≡ newest (wait s ∷ []) place.0 value }
{
    if s.place == place { s.value } else { value }
}

impl Row {
    pub fn empty() -> Row
        ensures none { waits result ≡ [] }
        ensures at { result.begin + result.len ≡ 0 }
    {
        let s = Store {
            place: Place(0),
            value: 0,
        };
        Row {
            items: [s; 8],
            begin: 0,
            len: 0,
        }
    }

    // The stores that wait, the oldest first.
    pub fn stores(&self) -> &[Store]
        ensures are { map wait result.now ≡ waits self.now }
        ensures few { length result.now ≤ 8 }
        ensures small { AllSmall result.now }
    {
        &self.items[self.begin..self.begin + self.len]
    }

    // The number of the newest store to the place, else memory's.
    pub fn newest(&self, place: Place, memory: u32) -> u32
        ensures { result ≡ newest (waits self.now) place.0 memory }
    {
        let mut value = memory;
        for s in self.stores() {
            value = over(*s, place, value);
        }
        value
    }

    // The row with one store more, the newest.
    pub fn pushed(&self, s: Store) -> Row
        requires room { self.now.begin + self.now.len < 8 }
        requires place { s.place.0 < 8 }
        requires value { s.value < 16 }
        ensures more { waits result ≡ waits self.now ++ wait s ∷ [] }
        ensures begin { result.begin ≡ self.now.begin }
        ensures len { result.len ≡ self.now.len + 1 }
    {
        let mut items = self.items;
        items[self.begin + self.len] = s;
        Row {
            items,
            begin: self.begin,
            len: self.len + 1,
        }
    }

    // The oldest store.
    pub fn oldest(&self) -> Store
        requires { 0 < self.now.len }
        ensures first { (ws : List Wait) × (waits self.now ≡ wait result ∷ ws) }
        ensures place { result.place.0 < 8 }
        ensures value { result.value < 16 }
    {
        self.items[self.begin]
    }

    // The row without its oldest store.
    pub fn rest(&self) -> Row
        requires { 0 < self.now.len }
        ensures first { (w : Wait) × (waits self.now ≡ w ∷ waits result) }
        ensures end { result.begin + result.len ≡ self.now.begin + self.now.len }
    {
        Row {
            items: self.items,
            begin: self.begin + 1,
            len: self.len - 1,
        }
    }
}
