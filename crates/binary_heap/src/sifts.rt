// An entry moves to its level, one level a call. A level's work is a swap. The length comes beside the words, since
// it is one of the caller's numbers (lib.rt).
ghost use Rattle.std.specs.Prelude.{◌≡◌, false, not, ◌+◌, ◌*◌, ◌≤◌, ◌<◌, length};
ghost use Rattle.binary_heap.specs.Order.{le};
ghost use Rattle.binary_heap.specs.Entries.{Holds, entry_at};
ghost use Rattle.binary_heap.specs.Heap.{Room, parent};
ghost use Rattle.binary_heap.specs.Sifts.{Rises, Sinks, child_of};

use crate::entries;

// Whether entry i has a parent that is after it.
#[tactic(auto, using(crate::proofs::Rising::root_in_order))]
fn rises(words: &[u64], i: usize) -> bool
    requires { Holds (length words.now) i }
    ensures { result ≡ not (le (entry_at words.now (parent i)) (entry_at words.now i)) }
{
    i != 0 && !entries::in_order(words, (i - 1) / 2, i)
}

// Entry i goes up while its parent is after it.
pub fn sift_up(words: &mut [u64], i: usize)
    requires { Holds (length words.old) i }
    ensures { Rises words.old i words.new }
{
    if rises(words, i) {
        climb(words, i);
    }
}

// Entry i, whose parent is after it, goes up a level, and on from there.
fn climb(words: &mut [u64], i: usize)
    requires { Holds (length words.old) i × (le (entry_at words.old (parent i)) (entry_at words.old i) ≡ false) }
    ensures { Rises words.old i words.new }
{
    let p = (i - 1) / 2;
    entries::swap(words, i, p);
    if rises(words, p) {
        climb(words, p);
    }
}

// The child of entry i, which has one, that is not after the other.
#[tactic(auto, unfolding(crate::specs::Sifts::child_of))]
fn child(words: &[u64], len: usize, i: usize) -> usize
    requires { Room (length words.now) len × (2 * i + 1 < len) }
    ensures { result ≡ child_of words.now len i }
{
    let left = 2 * i + 1;
    let right = 2 * i + 2;
    if len <= right || entries::in_order(words, left, right) {
        left
    } else {
        right
    }
}

// Entry i goes down while it is after a child.
pub fn sift_down(words: &mut [u64], len: usize, i: usize)
    requires { Room (length words.old) len × (i ≤ len) }
    ensures { Sinks words.old len i words.new }
{
    if len <= 2 * i + 1 {
        return;
    }
    let m = child(words, len, i);
    if entries::in_order(words, i, m) {
        return;
    }
    entries::swap(words, m, i);
    sift_down(words, len, m);
}
