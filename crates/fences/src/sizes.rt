// How lent words are shared out.
ghost use Rattle.std.specs.Prelude.{◌+◌, ◌*◌, ◌≤◌};
ghost use Rattle.fences.specs.Sizes.{Shares};

// How many states of so many threads fit so many words: as many as there is memory for, and as a u32 can count. More are
// allowed than were asked for, wherever more memory is lent.
pub fn states_that_fit(threads: usize, words: usize) -> usize
    requires some { 1 ≤ threads }
    requires few { threads ≤ 4 }
    requires lent { 65536 ≤ words }
    ensures { Shares threads words result }
{
    let fit = (words - 8192) / (5 * threads + 4);
    if fit < 0xffff_ffff { fit } else { 0xffff_ffff }
}
