// The hash cells. The words and n go side by side: a struct that held both would have `Room` for its invariant,
// but each function that writes would then ensure that the reference and n stay, two clauses in the place of one.
ghost use Rattle.std.specs.Prelude.{◌≡◌, ◌+◌, ◌*◌, ◌<◌, ◌≤◌, length};
ghost use Rattle.cells.specs.Cells.{cells_from, cell_words, cell_count, weight, cell_at, set_cell, cell_after, home_of, erased, zeroed};
ghost use Rattle.cells.specs.Probe.{entered};
ghost use Rattle.cells.specs.Probe.{probe as probeOf};
ghost use Rattle.linked_hash_map.specs.Words.{Room};

use cells::Probe;

// Of a record that is gone. A cell is a number of 16 bits, since it stands in the words that are lent.
const TOMBSTONE: u64 = 65535;

// The cell at which a key's probes start: its hash scaled to the number of cells, with no division.
#[tactic(auto, unfolding(cells::specs::Cells::home_of))]
fn home(n: usize, key: u64) -> usize
    requires { n ≤ 4096 }
    ensures { result ≡ home_of n key }
{
    let low = key % 0x1_0000_0000;
    let high = key / 0x1_0000_0000;
    let hash = (low * 1640531527 + high * 1540483477) % 0x1_0000_0000;
    let count = (12 * n + 192) as u64;
    (hash * count / 0x1_0000_0000) as usize
}

// The cell after p, round the end.
#[tactic(auto, unfolding(cells::specs::Cells::cell_after))]
fn after(n: usize, p: usize) -> usize
    requires { (n ≤ 4096) × (p < cell_count n) }
    ensures { result ≡ cell_after n p }
{
    if p + 1 < 12 * n + 192 { p + 1 } else { 0 }
}

// Cell p.
#[tactic(auto, unfolding(cells::specs::Cells::weight, cells::specs::Cells::cell_at))]
pub fn cell(words: &[u64], n: usize, p: usize) -> u64
    requires { Room (length words.now) n × (p < cell_count n) }
    ensures { result ≡ cell_at words.now n p }
{
    let word = words[5 * n + 10 + p / 4];
    (word >> (p % 4 * 16)) % 65536
}

// What the cell's lowest bit counts in its word.
#[tactic(auto, unfolding(cells::specs::Cells::weight))]
fn weight_of(p: usize) -> u64
    ensures { result ≡ weight p }
{
    1u64 << (p % 4 * 16)
}

// Writes v into cell p.
#[tactic(auto, unfolding(cells::specs::Cells::cell_at, cells::specs::Cells::set_cell), using(crate::proofs::Steps::fitting))]
pub fn set_cell(words: &mut [u64], n: usize, p: usize, v: u64)
    requires { Room (length words.old) n × (p < cell_count n) × (v < 65536) }
    ensures { words.new ≡ set_cell words.old n p v }
{
    let at = 5 * n + 10 + p / 4;
    let weight = weight_of(p);
    let old = cell(words, n, p);
    let word = words[at];
    words[at] = word - old * weight + v * weight;
}

// Where a key's record is, or the first cell passed that may be taken for one.
pub fn probe(words: &[u64], n: usize, key: u64) -> Probe
    requires { Room (length words.now) n }
    ensures { result ≡ probeOf words.now n key }
{
    let count = 12 * n + 192;
    let mut p = home(n, key);
    let mut free = None;
    for _ in 0..count {
        let v = cell(words, n, p);
        if v == 0 {
            return Probe::Free(free.unwrap_or(p));
        }
        if v <= n as u64 {
            let s = (v - 1) as usize;
            if words[5 * s] == key {
                return Probe::At(p, s);
            }
        } else {
            free = free.or(Some(p));
        }
        p = after(n, p);
    }
    free.map_or(Probe::Full, Probe::Free)
}

// Enters a record in the cell that its key's probe offers.
#[tactic(auto, unfolding(cells::specs::Probe::entered), using(crate::proofs::Steps::not_taken, cells::proofs::Probing::free_vacant))]
pub fn enter(words: &mut [u64], n: usize, slot: usize)
    requires { Room (length words.old) n × (slot < n) }
    ensures { words.new ≡ entered words.old n slot }
{
    if let Probe::Free(c) = probe(words, n, words[5 * slot]) {
        set_cell(words, n, c, slot as u64 + 1);
    }
}

// Empties cell p. Where no probe goes on to the cell after it, it is as if never used.
#[tactic(auto, unfolding(cells::specs::Cells::erased), using(cells::proofs::Probing::after_lt))]
pub fn erase(words: &mut [u64], n: usize, p: usize)
    requires { Room (length words.old) n × (p < cell_count n) }
    ensures { words.new ≡ erased words.old n p }
{
    let v = cell(words, n, after(n, p));
    let mark = if v == 0 { 0 } else { TOMBSTONE };
    set_cell(words, n, p, mark);
}

// Every cell as never used.
#[tactic(auto, using(crate::proofs::Steps::zeroed_part))]
pub fn clear_cells(words: &mut [u64], n: usize)
    requires { Room (length words.old) n }
    ensures { words.new ≡ zeroed words.old (cells_from n) (cell_words n) }
{
    words[5 * n + 10..8 * n + 58].fill(0);
}
