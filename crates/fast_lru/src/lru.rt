// The recency list's calls. Each asks first whether it is refused, and then leaves the work to the map.
#![tactic(auto, using(crate::proofs::Limits::list_admitted, crate::proofs::Slots::model_length))]

ghost use Rattle.std.specs.Prelude.{◌≡◌};
ghost use Rattle.fast_lru.specs.Refusals.{out_of_range, admitted};
ghost use Rattle.fast_lru.specs.Calls.{Opening, Clearing, Length, Emptiness, Capacity, Containing, Getting, Peeking, Inserting, Removing, Popping, PeekingOldest, Touching, Ranking, Checking};
ghost use Rattle.fast_lru.specs.Steps.{ValueAt, Picking, Choosing, PlacingFull, Placing, RankBetween, RankOf};

use cells::Probe;
use linked_hash_map::{LinkedHashMap, Record};
use time::Refusal;

// The list's numbers; the items are in the words.
#[derive(Clone, Copy, Default)]
pub struct FastLru {
    pub map: LinkedHashMap,
}

const MAX_CAPACITY: usize = 4096;

// The map refuses nothing that the list has admitted: its refusals are never met, and stand for no slot. (`touch`
// and `pop_lru` are compiled in place, since the book's own are.) Calls that look alike, as `get` and `peek`, or
// `len` and `capacity`, read other fields or promise other things: one function for two would be no plainer.
impl FastLru {
    // The empty list, in words of any contents.
    #[tactic(auto, using(crate::proofs::Changing::opening_refused, crate::proofs::Limits::opening_map, crate::proofs::Changing::opening_done))]
    pub fn new(words: &mut [u64], capacity: usize) -> Result<FastLru, Refusal>
        ensures { Opening words.old capacity words.new result }
    {
        limits::list(capacity, words.len())?;
        let map = LinkedHashMap::open(words, capacity).unwrap();
        Ok(FastLru { map })
    }

    // A capacity above the limit, or numbers that are all 0, as `default` makes them.
    #[tactic(auto, unfolding(crate::specs::Refusals::out_of_range))]
    fn out_of_range(self) -> bool
        ensures { result ≡ out_of_range self }
    {
        MAX_CAPACITY < self.map.capacity || self.map == LinkedHashMap::default()
    }

    #[tactic(auto, unfolding(crate::specs::Refusals::admitted))]
    fn admitted(self, size: usize) -> Result<(), Refusal>
        ensures { result ≡ admitted self size }
    {
        if self.out_of_range() {
            return Err(Refusal::LimitOutOfRange);
        }
        limits::list(self.map.capacity, size)
    }

    pub fn len(self, words: &[u64]) -> Result<usize, Refusal>
        ensures { Length words.now self result }
    {
        self.admitted(words.len())?;
        Ok(self.map.len)
    }

    pub fn is_empty(self, words: &[u64]) -> Result<bool, Refusal>
        ensures { Emptiness words.now self result }
    {
        self.admitted(words.len())?;
        Ok(self.map.len == 0)
    }

    pub fn capacity(self, words: &[u64]) -> Result<usize, Refusal>
        ensures { Capacity words.now self result }
    {
        self.admitted(words.len())?;
        Ok(self.map.capacity)
    }

    #[tactic(auto, using(crate::proofs::Limits::list_admitted, crate::proofs::Slots::has_slot))]
    pub fn contains(self, words: &[u64], key: u64) -> Result<bool, Refusal>
        ensures { Containing words.now self key result }
    {
        self.admitted(words.len())?;
        let found = self.map.find(words, key).unwrap_or(None);
        Ok(found.is_some())
    }

    // The value at a slot.
    #[tactic(auto, using(crate::proofs::Slots::value_at, crate::proofs::Slots::value_at_none))]
    fn value_at(self, words: &[u64], slot: Option<usize>) -> Option<u64>
        ensures { ValueAt words.now self slot result }
    {
        let record = self.map.record(words, slot?);
        Some(record.first)
    }

    // Moves the item to the front.
    pub fn get(&mut self, words: &mut [u64], key: u64) -> Result<Option<u64>, Refusal>
        ensures { Getting words.old self.old key words.new self.new result }
    {
        self.admitted(words.len())?;
        let slot = self.map.touch(words, key).unwrap_or(None);
        Ok(self.value_at(words, slot))
    }

    // Moves nothing.
    pub fn peek(self, words: &[u64], key: u64) -> Result<Option<u64>, Refusal>
        ensures { Peeking words.now self key result }
    {
        self.admitted(words.len())?;
        let slot = self.map.find(words, key).unwrap_or(None);
        Ok(self.value_at(words, slot))
    }

    // Puts the item at the front, and answers the key's old value. A new key in a full list pushes another item out.
    pub fn insert(
        &mut self,
        words: &mut [u64],
        key: u64,
        value: u64,
    ) -> Result<Option<u64>, Refusal>
        ensures { Inserting words.old self.old (record { key = key; value = value }) words.new self.new result }
    {
        self.admitted(words.len())?;
        let item = Record {
            key,
            first: value,
            second: 0,
        };
        Ok(self.place(words, item))
    }

    // One lookup tells whether the key is there, and where it goes if not. (This and `remove` go on at the place
    // for one word: the map's `put` and `remove` answer a whole record, which would go through memory.)
    fn place(&mut self, words: &mut [u64], item: Record) -> Option<u64>
        ensures { Placing words.old self.old item words.new self.new result }
    {
        let Ok(place) = self.map.seek(words, item.key) else {
            return None;
        };
        match place {
            Probe::At(_, slot) => {
                let old = self.map.replace_at(words, slot, item);
                return Some(old.first);
            }
            Probe::Free(cell) if self.map.len < self.map.capacity => {
                self.map.insert_at(words, cell, item);
            }
            Probe::Free(_) => self.place_evicting(words, item),
            // Not met in a list.
            Probe::Full => {}
        }
        None
    }

    // A new key in a full list takes the place of another. With no capacity there is none, and nothing is stored.
    #[tactic(auto, using(crate::proofs::Placing::placing_full, crate::proofs::Placing::placing_nothing))]
    fn place_evicting(&mut self, words: &mut [u64], item: Record)
        ensures { PlacingFull words.old self.old item words.new self.new }
    {
        if let Some((key, _)) = self.victim(words) {
            self.map.recycle(words, key, item);
        }
    }

    // The item that makes room for another. It is `oldest` under a contract of its own, so that another choice of
    // victim changes this function and nothing else.
    #[tactic(auto, using(crate::proofs::Slots::choosing))]
    fn victim(self, words: &[u64]) -> Option<(u64, u64)>
        ensures { Choosing words.now self result }
    {
        self.oldest(words)
    }

    pub fn remove(&mut self, words: &mut [u64], key: u64) -> Result<Option<u64>, Refusal>
        ensures { Removing words.old self.old key words.new self.new result }
    {
        self.admitted(words.len())?;
        let Ok(place) = self.map.seek(words, key) else {
            return Ok(None);
        };
        match place {
            Probe::At(cell, slot) => {
                let value = self.map.take_at(words, cell, slot);
                Ok(Some(value))
            }
            Probe::Free(_) | Probe::Full => Ok(None),
        }
    }

    // Takes the least recent item out.
    #[inline(always)]
    pub fn pop_lru(&mut self, words: &mut [u64]) -> Result<Option<(u64, u64)>, Refusal>
        ensures { Popping words.old self.old words.new self.new result }
    {
        self.admitted(words.len())?;
        let Some((key, value)) = self.oldest(words) else {
            return Ok(None);
        };
        // The record that goes is the item's.
        let _ = self.map.remove(words, key);
        Ok(Some((key, value)))
    }

    // The least recent item, which stays.
    pub fn peek_lru(self, words: &[u64]) -> Result<Option<(u64, u64)>, Refusal>
        ensures { PeekingOldest words.now self result }
    {
        self.admitted(words.len())?;
        Ok(self.oldest(words))
    }

    #[tactic(auto, using(crate::proofs::Slots::picking, crate::proofs::Slots::picking_none))]
    fn oldest(self, words: &[u64]) -> Option<(u64, u64)>
        ensures { Picking words.now self result }
    {
        let slot = self.map.last(words).unwrap_or(None)?;
        let record = self.map.record(words, slot);
        Some((record.key, record.first))
    }

    #[tactic(auto, using(crate::proofs::Limits::list_admitted, crate::proofs::Limits::admitted_map))]
    pub fn clear(&mut self, words: &mut [u64]) -> Result<(), Refusal>
        ensures { Clearing words.old self.old words.new self.new result }
    {
        self.admitted(words.len())?;
        self.map.clear(words).unwrap();
        Ok(())
    }

    // Moves the item to the front, and says whether there is one.
    #[inline(always)]
    pub fn touch(&mut self, words: &mut [u64], key: u64) -> Result<bool, Refusal>
        ensures { Touching words.old self.old key words.new self.new result }
    {
        self.admitted(words.len())?;
        let touched = self.map.touch(words, key).unwrap_or(None);
        Ok(touched.is_some())
    }

    // How many items are more recent than the key's.
    pub fn recency_rank(self, words: &[u64], key: u64) -> Result<Option<usize>, Refusal>
        ensures { Ranking words.now self key result }
    {
        self.admitted(words.len())?;
        Ok(self.rank_of(words, key))
    }

    // From both ends at once: two walks side by side take no longer than one, and the shorter has half the way at most.
    #[tactic(auto, using(crate::proofs::Ranks::rank_missing, crate::proofs::Ranks::rank_no_end, crate::proofs::Ranks::rank_ends))]
    fn rank_of(self, words: &[u64], key: u64) -> Option<usize>
        ensures { RankOf words.now self key result }
    {
        let slot = self.map.find(words, key).unwrap_or(None)?;
        let first = self.map.first(words).unwrap_or(None)?;
        let last = self.map.last(words).unwrap_or(None)?;
        self.rank_between(words, slot, first, last)
    }

    // Walks from the first item's slot and from the last one's until they meet, with no look at a key. (Numbers that
    // are no list's may say more items than there is room for: those are not walked. A step is a `let .. else`: by
    // `?` it is compiled to a select between the load of one link and that of the next, and takes a quarter longer.)
    fn rank_between(self, words: &[u64], slot: usize, first: usize, last: usize) -> Option<usize>
        ensures { RankBetween words.now self slot first last result }
    {
        let len = self.map.len;
        if self.map.capacity < len {
            return None;
        }
        let mut front = first;
        let mut back = last;
        for rank in 0..len.div_ceil(2) {
            if front == slot {
                return Some(rank);
            }
            let back_rank = len - 1 - rank;
            if back == slot {
                return Some(back_rank);
            }
            let Ok(Some(next)) = self.map.next(words, front) else {
                return None;
            };
            let Ok(Some(previous)) = self.map.previous(words, back) else {
                return None;
            };
            front = next;
            back = previous;
        }
        None
    }

    // Whether words and numbers form a list.
    #[tactic(auto, using(crate::proofs::Limits::list_admitted, crate::proofs::Limits::admitted_fits))]
    pub fn check(self, words: &[u64]) -> bool
        ensures { Checking words.now self result }
    {
        self.admitted(words.len()).is_ok() && self.map.check(words)
    }
}
