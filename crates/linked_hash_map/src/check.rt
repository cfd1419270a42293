// The parts of the check.
ghost use Rattle.std.specs.Prelude.{◌≡◌, ◌+◌, ◌<◌, length};
ghost use Rattle.rings.specs.Ring.{next, walks as walksOf};
ghost use Rattle.cells.specs.Cells.{cell_count};
ghost use Rattle.cells.specs.Index.{held_in};
ghost use Rattle.linked_hash_map.specs.Words.{Room};
ghost use Rattle.linked_hash_map.specs.Checks.{finds_of, finds_all};

use crate::index;
use cells::Probe;

// From node s by the next links come k records, each linked both ways, and then s again.
#[tactic(auto, using(crate::proofs::Steps::walking))]
pub fn walks(words: &[u64], n: usize, s: usize, k: usize) -> bool
    requires { Room (length words.now) n × (s < n + 2) }
    ensures { result ≡ walksOf words.now n s s k }
{
    let mut a = s;
    for _ in 0..k {
        let x = words[5 * a + 4];
        if n as u64 <= x {
            return false;
        }
        let b = x as usize;
        if words[5 * b + 3] != a as u64 {
            return false;
        }
        a = b;
    }
    words[5 * a + 4] == s as u64 && words[5 * s + 3] == a as u64
}

// The probe of each live record's key ends at that record.
#[tactic(auto, using(crate::proofs::Steps::finding))]
pub fn finds_all(words: &[u64], n: usize, len: usize) -> bool
    requires { Room (length words.now) n }
    ensures { result ≡ finds_all words.now n len (next words.now n) }
{
    let mut x = words[5 * n + 4];
    for _ in 0..len {
        if n as u64 <= x {
            return false;
        }
        let s = x as usize;
        if !finds(words, n, s) {
            return false;
        }
        x = words[5 * s + 4];
    }
    true
}

#[tactic(auto, unfolding(crate::specs::Checks::finds_of), using(crate::proofs::Steps::not_ended, crate::proofs::Probed::none_at))]
fn finds(words: &[u64], n: usize, slot: usize) -> bool
    requires { Room (length words.now) n × (slot < n) }
    ensures { result ≡ finds_of words.now n slot }
{
    match index::probe(words, n, words[5 * slot]) {
        Probe::At(_, s) => s == slot,
        Probe::Free(_) | Probe::Full => false,
    }
}

// How many cells hold a record.
#[tactic(auto, using(crate::proofs::Steps::counting))]
pub fn held(words: &[u64], n: usize) -> usize
    requires { Room (length words.now) n }
    ensures { result ≡ length (held_in words.now n (cell_count n)) }
{
    let mut held = 0;
    for p in 0..12 * n + 192 {
        let v = index::cell(words, n, p);
        if 1 <= v && v <= n as u64 {
            held += 1;
        }
    }
    held
}
