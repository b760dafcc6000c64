// How the places of a program are named.
ghost use Rattle.std.specs.Prelude.{◌≤◌, vec_len};

// By numerals, or by words; by no words where no place has come.
#[derive(Drop)]
pub enum Places {
    Numerals,
    Words(Words),
}

// In the order in which they came, which numbers the places.
#[derive(Drop)]
pub struct Words {
    pub all: Vec<String>,
    ghost few: { vec_len all ≤ 8 },
}
