// Instructions, and the numbers that they name.

// A register's number, below 4.
#[derive(Clone, Copy, PartialEq, Eq, Debug)]
pub struct Register(pub u32);

// A place in memory, below 8.
#[derive(Clone, Copy, PartialEq, Eq, Debug)]
pub struct Place(pub u32);

// A thread's number, below 4.
#[derive(Clone, Copy, PartialEq, Eq, Debug)]
pub struct ThreadNumber(pub u32);

#[derive(Clone, Copy, PartialEq, Eq, Debug, Default)]
pub enum Instruction {
    // a number into a register
    Set(Register, u32),
    // the sum of the second and the third register, modulo 16, into the first
    Add(Register, Register, Register),
    // a place into a register
    Load(Register, Place),
    // a register to a place
    Store(Place, Register),
    // only when nothing of the thread waits
    #[default]
    Fence,
}
