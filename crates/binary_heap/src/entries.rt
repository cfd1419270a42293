// Entries in words. One is told by its place, since the memory is words of the caller's, with no Entry to point to.
// (`get` and `put` look like the map's `read_record` and `write_record`: other fields, three words apart and not five,
// and a function for both would be no plainer.)
ghost use Rattle.std.specs.Prelude.{◌≡◌, ◌+◌, ◌*◌, leb, length};
ghost use Rattle.binary_heap.specs.Order.{le};
ghost use Rattle.binary_heap.specs.Entries.{entry_at, put_at, swap_at, Holds};

#[derive(Clone, Copy, Default, PartialEq, Eq, PartialOrd, Ord)]
pub struct Entry {
    pub score: u64,
    pub seq: u64,
    pub key: u64,
}

// Entry i: three words at a place, which no `From` would take.
pub fn get(words: &[u64], i: usize) -> Entry
    requires { Holds (length words.now) i }
    ensures { result ≡ entry_at words.now i }
{
    Entry {
        score: words[3 * i],
        seq: words[3 * i + 1],
        key: words[3 * i + 2],
    }
}

// Stores an entry as entry i.
pub fn put(words: &mut [u64], i: usize, e: Entry)
    requires { Holds (length words.old) i }
    ensures { words.new ≡ put_at words.old i e }
{
    words[3 * i] = e.score;
    words[3 * i + 1] = e.seq;
    words[3 * i + 2] = e.key;
}

// Exchanges entries i and j.
pub fn swap(words: &mut [u64], i: usize, j: usize)
    requires { Holds (length words.old) i × Holds (length words.old) j }
    ensures { words.new ≡ swap_at words.old i j }
{
    let a = get(words, i);
    let b = get(words, j);
    put(words, i, b);
    put(words, j, a);
}

// Whether entry i is not after entry j.
pub fn in_order(words: &[u64], i: usize, j: usize) -> bool
    requires { Holds (length words.now) i × Holds (length words.now) j }
    ensures { result ≡ le (entry_at words.now i) (entry_at words.now j) }
{
    get(words, i) <= get(words, j)
}

// Whether entry i has at most this score.
#[tactic(auto, unfolding(crate::specs::Entries::entry_at))]
pub fn is_within(words: &[u64], i: usize, score: u64) -> bool
    requires { Holds (length words.now) i }
    ensures { result ≡ leb (entry_at words.now i).score score }
{
    words[3 * i] <= score
}
