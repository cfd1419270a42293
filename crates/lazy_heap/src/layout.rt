// Where the parts stand in the words: the scores first, and the entries right after them.
ghost use Rattle.std.specs.Prelude.{◌≡◌, ◌≤◌};
ghost use Rattle.lazy_heap.specs.Words.{start, words_for};

use std::ops::Range;

// The words of the entries, in a heap for so many keys.
pub fn entries(limit: usize) -> Range<usize>
    requires { limit ≤ 4096 }
    ensures { result ≡ record { start = start limit; end = words_for limit } }
{
    8 * limit + 58..64 + 32 * limit
}
