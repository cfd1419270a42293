// The map's calls. Each is one probe and a few links.
ghost use Rattle.std.specs.Prelude.{◌≡◌, ◌+◌, ◌-◌, ◌<◌, ◌≤◌, length, false, true, MatchResult};
ghost use Rattle.limits.specs.Limits.{map_fits};
ghost use Rattle.rings.specs.Ring.{moved};
ghost use Rattle.cells.specs.Cells.{cell_count};
ghost use Rattle.linked_hash_map.specs.declared.map.PutError.TheVariants as failed;
ghost use Rattle.linked_hash_map.specs.Words.{Room, Nodes, record_at, written, emptied, wiped, refilled, replaced, taken_out};
ghost use Rattle.linked_hash_map.specs.Numbers.{empty_map, shrunk_map, slot_from, word_of, Grown, Inserting, Renewing};
ghost use Rattle.linked_hash_map.specs.Calls.{Opening, Clearing, Draining, Finding, Touching, Reading, Writing, place_of, end_of, beside, ReplacingAt, InsertingAt, TakingAt, Putting, Removing, Recycling, Ending, Next, Previous, Checking};

use crate::{check, index, links};
use cells::Probe;

// The map's numbers; all else is in the words.
#[derive(Clone, Copy, Default, PartialEq, Eq)]
pub struct LinkedHashMap {
    pub capacity: usize,
    pub len: usize,
    // Insertions until the cells are cleared and the records entered anew, which wipes tombstones.
    pub refill_in: usize,
}

#[derive(Clone, Copy, Default)]
pub struct Record {
    pub key: u64,
    pub first: u64,
    pub second: u64,
}

// The capacity is above 4,096, or the words are too few for it.
#[derive(Clone, Copy)]
pub struct Unfit;

#[derive(Clone, Copy)]
pub enum PutError {
    // The key is new, and there is no free record.
    Full,
    Unfit,
}

impl From<Unfit> for PutError {
    ghost from_gives = { λ _ e. e ≡ failed.Unfit };

    fn from(_unfit: Unfit) -> PutError {
        PutError::Unfit
    }
}

// The two links of a node, as words of it.
#[derive(Clone, Copy)]
enum Link {
    Previous = 3,
    Next = 4,
}

// All records free, and no cell used, whatever the words held.
#[tactic(auto, unfolding(crate::specs::Words::emptied), using(crate::proofs::Steps::filling))]
fn empty_words(words: &mut [u64], n: usize)
    requires { Room (length words.old) n }
    ensures { words.new ≡ emptied words.old n }
{
    links::close_rings(words, n + 2, n, n + 1);
    for i in 0..n {
        links::attach(words, n + 2, n + 1, i);
    }
    index::clear_cells(words, n);
}

// The same where the words are a map: its live ring goes to the free one whole, so that only the cells cost with n.
#[tactic(auto, unfolding(crate::specs::Words::wiped))]
fn wipe(words: &mut [u64], n: usize)
    requires { Room (length words.old) n }
    ensures { words.new ≡ wiped words.old n }
{
    links::splice(words, n + 2, n, n + 1);
    index::clear_cells(words, n);
}

#[tactic(auto, unfolding(crate::specs::Words::written))]
fn write_record(words: &mut [u64], slot: usize, item: Record)
    requires { Nodes (length words.old) (slot + 1) }
    ensures { words.new ≡ written words.old slot item }
{
    words[5 * slot] = item.key;
    words[5 * slot + 1] = item.first;
    words[5 * slot + 2] = item.second;
}

fn read_record(words: &[u64], slot: usize) -> Record
    requires { Nodes (length words.now) (slot + 1) }
    ensures { result ≡ record_at words.now slot }
{
    Record {
        key: words[5 * slot],
        first: words[5 * slot + 1],
        second: words[5 * slot + 2],
    }
}

// Writes a record over the one at a slot, moves it to the front, and hands back the old one.
#[tactic(auto, unfolding(crate::specs::Words::replaced))]
fn replace(words: &mut [u64], n: usize, slot: usize, item: Record) -> Record
    requires { Room (length words.old) n × (slot < n) }
    ensures record { result ≡ record_at words.old slot }
    ensures words { words.new ≡ replaced words.old n slot item }
{
    let old = read_record(words, slot);
    write_record(words, slot, item);
    links::move_after(words, n + 2, n, slot);
    old
}

// Enters the live records anew, front first.
#[cold]
#[tactic(auto, unfolding(crate::specs::Words::refilled), using(crate::proofs::Steps::entering))]
fn refill(words: &mut [u64], n: usize, len: usize)
    requires { Room (length words.old) n }
    ensures { words.new ≡ refilled words.old n len }
{
    index::clear_cells(words, n);
    let mut x = words[5 * n + 4] as usize;
    for _ in 0..len {
        if n <= x {
            return;
        }
        index::enter(words, n, x);
        x = words[5 * x + 4] as usize;
    }
}

// Whether the capacity is within the limit, and the words are enough for it.
#[tactic(auto, using(crate::proofs::Limits::is_room))]
fn fits(words: &[u64], capacity: usize) -> Result<(), Unfit>
    ensures { MatchResult result
        (λ _. (map_fits capacity (length words.now) ≡ true) × Room (length words.now) capacity)
        (λ _. map_fits capacity (length words.now) ≡ false) }
{
    if limits::map(capacity, words.len()) {
        Ok(())
    } else {
        Err(Unfit)
    }
}

// The slot that a link leads to.
#[tactic(auto, unfolding(crate::specs::Numbers::slot_from), using(crate::proofs::Steps::then_some_cond))]
fn slot_from(n: usize, x: u64) -> Option<usize>
    ensures { result ≡ slot_from n x }
{
    (x < n as u64).then_some(x as usize)
}

// Some calls are compiled in place: a function of its own would put the numbers, and what the loop around it holds,
// into memory at each turn.
//
// `record`, `set_payload`, `replace_at`, `insert_at`, `take_at` and `recycle` answer no `Result`, since they never
// fail: where the words do not fit, each answers zeros, false, the item or nothing, as its contract has it.
//
// `first` and `last`, `next` and `previous` are a line each over one function. A step requires `Room`, or `Nodes`,
// since the words are the caller's.
impl LinkedHashMap {
    fn empty(capacity: usize) -> LinkedHashMap
        requires { capacity ≤ 4096 }
        ensures { result ≡ empty_map capacity }
    {
        LinkedHashMap {
            capacity,
            len: 0,
            refill_in: 6 * capacity + 96,
        }
    }

    // The empty map, in words of any contents.
    #[tactic(auto, using(crate::proofs::Opening::openings))]
    pub fn open(words: &mut [u64], capacity: usize) -> Result<LinkedHashMap, Unfit>
        ensures { Opening words.old capacity words.new result }
    {
        fits(words, capacity)?;
        empty_words(words, capacity);
        Ok(LinkedHashMap::empty(capacity))
    }

    // The empty map. Very few records are removed one by one, which costs less than to wipe all cells.
    #[tactic(auto, using(crate::proofs::Opening::clearings))]
    pub fn clear(&mut self, words: &mut [u64]) -> Result<(), Unfit>
        ensures { Clearing words.old self.old words.new self.new result }
    {
        fits(words, self.capacity)?;
        if self.len <= self.capacity / 32 {
            self.drain(words);
        } else {
            wipe(words, self.capacity);
            *self = LinkedHashMap::empty(self.capacity);
        }
        Ok(())
    }

    // Removes the records, the first one first. The turns are counted by the numbers, so that it ends on any words.
    #[tactic(auto, using(crate::proofs::Draining::drain_start, crate::proofs::Draining::drain_then))]
    fn drain(&mut self, words: &mut [u64])
        ensures { Draining words.old self.old 0 words.new self.new }
    {
        for _ in 0..self.len {
            self.remove_first(words);
        }
    }

    #[tactic(auto, using(crate::proofs::Draining::drains))]
    fn remove_first(&mut self, words: &mut [u64])
        ensures { Draining words.old self.old (self.old.len - 1) words.new self.new }
    {
        if let Some(slot) = self.first(words).unwrap_or(None) {
            let front = self.record(words, slot);
            let _gone = self.remove(words, front.key);
        }
    }

    pub fn find(self, words: &[u64], key: u64) -> Result<Option<usize>, Unfit>
        ensures { Finding words.now self key result }
    {
        match self.seek(words, key)? {
            Probe::At(_, slot) => Ok(Some(slot)),
            Probe::Free(_) | Probe::Full => Ok(None),
        }
    }

    // Moves the key's record to the front.
    #[inline(always)]
    pub fn touch(self, words: &mut [u64], key: u64) -> Result<Option<usize>, Unfit>
        ensures { Touching words.old self key words.new result }
    {
        match self.seek(words, key)? {
            Probe::At(_, slot) => {
                links::move_after(words, self.capacity + 2, self.capacity, slot);
                Ok(Some(slot))
            }
            Probe::Free(_) | Probe::Full => Ok(None),
        }
    }

    // The record at a slot; zeros where there can be none.
    pub fn record(self, words: &[u64], slot: usize) -> Record
        ensures { Reading words.now self slot result }
    {
        if slot < self.capacity {
            if let Ok(()) = fits(words, self.capacity) {
                return read_record(words, slot);
            }
        }
        Record::default()
    }

    // Writes the key's payload, and says whether it is held.
    pub fn set_payload(self, words: &mut [u64], item: Record) -> bool
        ensures { Writing words.old self item words.new result }
    {
        let Ok(place) = self.seek(words, item.key) else {
            return false;
        };
        if let Probe::At(_, slot) = place {
            write_record(words, slot, item);
            return true;
        }
        false
    }

    // For a call that goes on at the place, so that the key is looked for once.
    #[tactic(auto, unfolding(crate::specs::Calls::place_of), using(crate::proofs::Probed::err_unfit))]
    pub fn seek(self, words: &[u64], key: u64) -> Result<Probe, Unfit>
        ensures { result ≡ place_of words.now self key }
    {
        fits(words, self.capacity)?;
        Ok(index::probe(words, self.capacity, key))
    }

    // Puts the record over the one of its key, which is at this slot, and hands that back. The numbers stay.
    pub fn replace_at(self, words: &mut [u64], slot: usize, item: Record) -> Record
        ensures { ReplacingAt words.old self slot item words.new result }
    {
        if slot < self.capacity {
            if let Ok(()) = fits(words, self.capacity) {
                return replace(words, self.capacity, slot, item);
            }
        }
        item
    }

    // Puts the record of a new key at the front, and its cell at this one, where there are fewer records than
    // the capacity.
    #[inline(always)]
    pub fn insert_at(&mut self, words: &mut [u64], cell: usize, item: Record)
        ensures { InsertingAt words.old self.old cell item words.new self.new }
    {
        if let Ok(()) = fits(words, self.capacity) {
            if cell < 12 * self.capacity + 192 {
                self.insert(words, cell, item);
            }
        }
    }

    // The same, on words that have room and with a cell that they have.
    #[inline(always)]
    fn insert(&mut self, words: &mut [u64], cell: usize, item: Record)
        requires { Room (length words.old) self.old.capacity × (cell < cell_count self.old.capacity) }
        ensures { Inserting words.old self.old item cell words.new self.new }
    {
        let n = self.capacity;
        self.len = self.len.saturating_add(1).min(n);
        let x = words[5 * n + 9];
        if n as u64 <= x {
            return;
        }
        let s = x as usize;
        write_record(words, s, item);
        index::set_cell(words, n, cell, x + 1);
        links::move_after(words, n + 2, n, s);
        self.count_insertion(words);
    }

    // Counts the insertions, and now and then enters the records in the cells anew.
    #[inline(always)]
    fn count_insertion(&mut self, words: &mut [u64])
        requires { Room (length words.old) self.old.capacity }
        ensures { Grown words.old self.old self.old.len words.new self.new }
    {
        if 1 < self.refill_in {
            self.refill_in -= 1;
            return;
        }
        refill(words, self.capacity, self.len);
        self.refill_in = 6 * self.capacity + 96;
    }

    // Takes the record at this cell and slot out, and answers its first word.
    #[tactic(auto, using(crate::proofs::Places::takings))]
    pub fn take_at(&mut self, words: &mut [u64], cell: usize, slot: usize) -> u64
        ensures { TakingAt words.old self.old cell slot words.new self.new result }
    {
        if let Ok(()) = fits(words, self.capacity) {
            if slot < self.capacity && cell < 12 * self.capacity + 192 {
                return self.take(words, cell, slot).first;
            }
        }
        0
    }

    // Takes the record at a slot, and its cell, out of the map, and hands it back.
    #[inline(always)]
    #[tactic(auto, unfolding(crate::specs::Words::taken_out))]
    fn take(&mut self, words: &mut [u64], cell: usize, slot: usize) -> Record
        requires { Room (length words.old) self.old.capacity × (cell < cell_count self.old.capacity) × (slot < self.old.capacity) }
        ensures record { result ≡ record_at words.old slot }
        ensures words { words.new ≡ taken_out words.old self.old.capacity cell slot }
        ensures numbers { self.new ≡ shrunk_map self.old }
    {
        let n = self.capacity;
        let old = read_record(words, slot);
        index::erase(words, n, cell);
        self.free(words, slot);
        old
    }

    // Puts the record at the front, in the place of its key's old one where there is one, and hands that back.
    #[tactic(auto, using(crate::proofs::Places::puttings))]
    pub fn put(&mut self, words: &mut [u64], item: Record) -> Result<Option<Record>, PutError>
        ensures { Putting words.old self.old item words.new self.new result }
    {
        match self.seek(words, item.key)? {
            Probe::At(_, slot) => Ok(Some(self.replace_at(words, slot, item))),
            Probe::Free(cell) if self.len < self.capacity => {
                self.insert_at(words, cell, item);
                Ok(None)
            }
            Probe::Free(_) => Err(PutError::Full),
            // Every cell holds a record, as in no map.
            Probe::Full => Err(PutError::Full),
        }
    }

    #[inline(always)]
    pub fn remove(&mut self, words: &mut [u64], key: u64) -> Result<Option<Record>, Unfit>
        ensures { Removing words.old self.old key words.new self.new result }
    {
        match self.seek(words, key)? {
            Probe::At(cell, slot) => Ok(Some(self.take(words, cell, slot))),
            Probe::Free(_) | Probe::Full => Ok(None),
        }
    }

    // Takes a key's record out and puts another in its place, at the front; where that one's key is held, nowhere.
    // It is what `remove` and `put` would do, but the record stays in its ring.
    pub fn recycle(&mut self, words: &mut [u64], key: u64, item: Record)
        ensures { Recycling words.old self.old key item words.new self.new }
    {
        let Ok(place) = self.seek(words, key) else {
            return;
        };
        if let Probe::At(cell, slot) = place {
            index::erase(words, self.capacity, cell);
            self.renew(words, item, slot);
        }
    }

    // Puts a record at the front, over the one at a slot that no cell holds.
    #[tactic(auto, using(crate::proofs::Putting::put_in_lem, cells::proofs::Probing::free_vacant))]
    fn renew(&mut self, words: &mut [u64], item: Record, slot: usize)
        requires { Room (length words.old) self.old.capacity × (slot < self.old.capacity) }
        ensures { Renewing words.old self.old item slot words.new self.new }
    {
        let n = self.capacity;
        match index::probe(words, n, item.key) {
            Probe::Free(cell) => {
                write_record(words, slot, item);
                index::set_cell(words, n, cell, slot as u64 + 1);
                links::move_after(words, n + 2, n, slot);
                self.count_insertion(words);
            }
            Probe::At(_, _) | Probe::Full => self.free(words, slot),
        }
    }

    // Puts the record at a slot among the free ones.
    #[tactic(auto, unfolding(crate::specs::Numbers::shrunk_map))]
    fn free(&mut self, words: &mut [u64], slot: usize)
        requires { Room (length words.old) self.old.capacity × (slot < self.old.capacity) }
        ensures words { words.new ≡ moved (self.old.capacity + 2) words.old (self.old.capacity + 1) slot }
        ensures numbers { self.new ≡ shrunk_map self.old }
    {
        links::move_after(words, self.capacity + 2, self.capacity + 1, slot);
        self.len = self.len.saturating_sub(1);
    }

    #[tactic(auto, using(crate::proofs::Walking::first_is))]
    pub fn first(self, words: &[u64]) -> Result<Option<usize>, Unfit>
        ensures { Ending words.now self 0 result }
    {
        self.end(words, Link::Next)
    }

    #[tactic(auto, using(crate::proofs::Walking::last_is))]
    pub fn last(self, words: &[u64]) -> Result<Option<usize>, Unfit>
        ensures { Ending words.now self (self.len - 1) result }
    {
        self.end(words, Link::Previous)
    }

    #[tactic(auto, using(crate::proofs::Walking::next_is))]
    pub fn next(self, words: &[u64], slot: usize) -> Result<Option<usize>, Unfit>
        ensures { Next words.now self slot result }
    {
        self.beside(words, slot, Link::Next)
    }

    #[tactic(auto, using(crate::proofs::Walking::previous_is))]
    pub fn previous(self, words: &[u64], slot: usize) -> Result<Option<usize>, Unfit>
        ensures { Previous words.now self slot result }
    {
        self.beside(words, slot, Link::Previous)
    }

    // The slot to which a link of the live ring's own node leads.
    #[tactic(auto, unfolding(crate::specs::Calls::end_of), using(crate::proofs::Probed::err_unfit))]
    fn end(self, words: &[u64], link: Link) -> Result<Option<usize>, Unfit>
        ensures { result ≡ end_of words.now self (word_of link) }
    {
        fits(words, self.capacity)?;
        Ok(slot_from(self.capacity, words[5 * self.capacity + link as usize]))
    }

    // The slot to which a record's link leads.
    #[tactic(auto, unfolding(crate::specs::Calls::beside), using(crate::proofs::Probed::err_unfit))]
    fn beside(self, words: &[u64], slot: usize, link: Link) -> Result<Option<usize>, Unfit>
        ensures { result ≡ beside words.now self slot (word_of link) }
    {
        fits(words, self.capacity)?;
        if self.capacity <= slot {
            return Ok(None);
        }
        Ok(slot_from(self.capacity, words[5 * slot + link as usize]))
    }

    // Whether words and numbers form a map. The first three tests say what the calls after them require.
    pub fn check(self, words: &[u64]) -> bool
        ensures { Checking words.now self result }
    {
        let n = self.capacity;
        let len = self.len;
        if !limits::map(n, words.len()) || n < len || self.refill_in == 0 {
            return false;
        }
        check::walks(words, n, n, len)
            && check::walks(words, n, n + 1, n - len)
            && check::finds_all(words, n, len)
            && check::held(words, n) == len
    }
}
