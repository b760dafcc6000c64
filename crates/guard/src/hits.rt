// The spot at which a move does an instruction while something of its thread waits, as a bit.
ghost use Rattle.std.specs.Prelude.{◌≡◌, ◌+◌, ◌*◌, ◌/◌, ◌%◌, ◌<◌, ◌≤◌, length};
ghost use Rattle.explore.specs.Found.{width};
ghost use Rattle.guard.specs.Masks.{bit_of};
ghost use Rattle.guard.specs.Rules.{word_bit, hit_bits};

// States that were explored, for so many threads: their words, and the kept edges between them.
#[derive(Clone, Copy)]
pub struct States<'a> {
    pub threads: usize,
    pub queue: &'a [u32],
    pub edges: &'a [u32],
}

// The bit of the spot before instruction `pc` of a thread; none past the eighth.
fn bit_at(thread: usize, pc: u32) -> u32
    requires { thread < 4 }
    ensures { result ≡ bit_of thread pc }
{
    if pc >= 8 {
        return 0;
    }
    1 << (31 - (8 * thread as u32 + pc))
}

// What the next instruction of a thread passes, by the thread's first word: nothing where no store waits. Not by
// `machine::standing`, whose contracts speak only of words that pack a state: here any words will do.
fn hit_by_word(thread: usize, word: u32) -> u32
    requires { thread < 4 }
    ensures { result ≡ word_bit thread (word / 65536 % 16) (word / 1048576) }
{
    if word >> 20 == 0 {
        return 0;
    }
    bit_at(thread, (word >> 16) & 15)
}

impl States<'_> {
    // What move `by` of state `node` passes. A store going out passes nothing.
    pub fn hit(&self, node: usize, by: usize) -> u32
        requires few { self.now.threads ≤ 4 }
        requires words { node * width self.now.threads + width self.now.threads ≤ length self.now.queue.now }
        ensures { result ≡ hit_bits self.now.threads self.now.queue.now node by }
    {
        if by >= self.threads {
            return 0;
        }
        hit_by_word(by, self.queue[node * (1 + 3 * self.threads) + (1 + 3 * by)])
    }
}
