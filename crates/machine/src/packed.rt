// States as words. A state of so many threads is memory's word and three words for each thread: the registers with
// which instruction is next and how many stores wait; the numbers of the stores that wait; their places.
ghost use Rattle.std.specs.Prelude.{◌≡◌, ◌≤◌, [], ◌∷◌};
ghost use Rattle.model.specs.Machine.{At};
ghost use Rattle.lent.specs.Nibbles.{number};
ghost use Rattle.machine.specs.Meaning.{at, waits};
ghost use Rattle.machine.specs.Packed.{PacksAt, pack_at, unpack_at, pairs, values as values_of, places as places_of};

use crate::rows::Row;
use crate::stores::Store;
use crate::threads::ThreadState;
use lent::nibbles::nibble;
use program::instructions::Place;

// The row of `len` stores with these numbers and these places.
fn unpack_row(len: usize, values: u32, places: u32) -> Row
    requires { len ≤ 8 }
    ensures is { waits result ≡ pairs len values places }
    ensures begin { result.begin ≡ 0 }
    ensures len { result.len ≡ len }
{
    let mut items = [Store {
        place: Place(0),
        value: 0,
    }; 8];
    for k in 0..len {
        let shift = k as u32;
        items[k] = Store {
            place: Place(nibble(places, shift) & 7),
            value: nibble(values, shift),
        };
    }
    Row {
        items,
        begin: 0,
        len,
    }
}

// The thread that three words are.
pub fn unpack_thread(word: u32, values: u32, places: u32) -> ThreadState
    requires { (a : At) × PacksAt word values places a }
    ensures { at result ≡ unpack_at word values places }
{
    ThreadState {
        pc: ((word >> 16) & 15) as usize,
        regs: word & 0xffff,
        row: unpack_row((word >> 20) as usize, values, places),
    }
}

// The numbers and the places of a row's stores.
fn pack_row(row: &Row) -> (u32, u32)
    ensures { (result.0 ≡ number (values_of (waits row.now))) × (result.1 ≡ number (places_of (waits row.now))) }
{
    let mut values = 0;
    let mut places = 0;
    for (k, s) in row.stores().iter().enumerate() {
        let shift = 4 * (k as u32);
        values |= s.value << shift;
        places |= s.place.0 << shift;
    }
    (values, places)
}

// The three words of a thread.
pub fn pack_thread(t: &ThreadState) -> [u32; 3]
    ensures { result ≡ pack_at (at t.now) }
{
    let (values, places) = pack_row(&t.row);
    let word = t.regs | ((t.pc as u32) << 16) | ((t.row.len as u32) << 20);
    [word, values, places]
}
