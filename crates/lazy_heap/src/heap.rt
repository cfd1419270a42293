// The heap's calls. A public call tests the limits, and its private steps may count on them. (The words are the
// caller's, lent to each call: so no struct holds them with the numbers, and a step requires that they have room.)
//
// Where the heap has room the map refuses nothing: hence `unwrap`, or `unwrap_or(None)`, which reads as no key.
// Calls that look alike read other fields or promise other things.
#![tactic(auto, using(crate::proofs::Calling::no_heap, crate::proofs::Calling::limits_room))]

ghost use Rattle.std.specs.Prelude.{◌≡◌, ◌-◌, ◌^◌, ◌*◌, ◌<◌, length, ltb};
ghost use Rattle.limits.specs.Limits.{heap_limits};
ghost use Rattle.linked_hash_map.specs.Calls.{place_of};
ghost use Rattle.lazy_heap.specs.Words.{Room};
ghost use Rattle.lazy_heap_model.specs.Model.{at_least_one, factor_of, len, heap_len, at_most};
ghost use Rattle.lazy_heap.specs.Calls.{Opening, Resetting, Asking, is_empty, score_of, Removing, PeekingBest, PoppingBest, PoppingAtMost, RebuildingNow, RebuildingMaybe, RenumberingNow, Clearing, Updating, Checking};
ghost use Rattle.lazy_heap.specs.Steps.{best_of, within, is_over, sum, Storing, TakingKey, Living, Pushing, Popping, Peeking, CountingEntries, TakingTop, Settled, Discarding, Rebuilding, Renumbering, Fitting, Trimming, Holding};
ghost use Rattle.lazy_heap.specs.Walks.{CountingWithin, Sound, Agreeing};

use crate::{layout, walks};
use binary_heap::Entry;
use cells::Probe;
use lazy_heap_model::Counted;
use linked_hash_map::{LinkedHashMap, Record};
use time::Refusal;

// The heap's numbers; all else is in the words.
#[derive(Clone, Copy, Default)]
pub struct LazyMinHeap {
    pub scores: LinkedHashMap,
    pub entries: usize,
    pub seq: u64,
    pub factor: usize,
}

fn at_least_one(factor: usize) -> usize
    ensures { result ≡ at_least_one factor }
{
    factor.max(1)
}

// Whether there are more entries than factor times the keys held.
fn too_many(factor: usize, entries: usize, held: usize) -> bool
    ensures { result ≡ ltb (at_least_one factor * held) entries }
{
    at_least_one(factor).saturating_mul(held) < entries
}

// A new key, with as many held as the limit allows.
fn is_over(place: Probe, len: usize, capacity: usize) -> bool
    ensures { result ≡ is_over place len capacity }
{
    match place {
        Probe::At(_, _) => false,
        Probe::Free(_) => capacity <= len,
        Probe::Full => true,
    }
}

// The sum of two counts of entries. (No heap has counts beyond 32,769, and where a count is, nothing is told.)
fn sum(a: usize, b: usize) -> usize
    ensures { result ≡ sum a b }
{
    if a <= 32769 && b <= 32769 { a + b } else { 0 }
}

// What `put` does at the place of its key, told by the score that it replaces. (This and `take_key` go on at the
// place for one word: the map's `put` and `remove` answer a whole record, which would go through memory.)
fn store_at(map: &mut LinkedHashMap, words: &mut [u64], place: Probe, item: Record) -> Option<u64>
    requires { place_of words.old map.old item.key ≡ Ok place }
    ensures { Storing words.old map.old item words.new map.new result }
{
    match place {
        Probe::At(_, s) => Some(map.replace_at(words, s, item).first),
        Probe::Free(c) => {
            if map.len < map.capacity {
                map.insert_at(words, c, item);
            }
            None
        }
        Probe::Full => None,
    }
}

// What `remove` does, told by the score that is gone.
fn take_key(map: &mut LinkedHashMap, words: &mut [u64], key: u64) -> Option<u64>
    requires { Room (length words.old) map.old.capacity }
    ensures { TakingKey words.old map.old key words.new map.new result }
{
    match map.seek(words, key).unwrap() {
        Probe::At(c, s) => Some(map.take_at(words, c, s)),
        Probe::Free(_) | Probe::Full => None,
    }
}

// The pair that callers see. (No `From`: it would stand away from the definition.)
fn best_of(top: Option<Entry>) -> Option<(u64, u64)>
    ensures { result ≡ best_of top }
{
    top.map(|e| (e.key, e.score))
}

// The entry, if its score is at most this one. No score is above the largest word.
fn within(top: Option<Entry>, score: u64) -> Option<Entry>
    ensures within { result ≡ within score top }
    ensures all { score ≡ 2 ^ 64 - 1 → result ≡ top }
{
    let e = top?;
    (e.score <= score).then_some(e)
}

impl LazyMinHeap {
    // ---- opening, and the factor

    pub fn open(
        words: &mut [u64],
        limit: usize,
        factor: usize,
        seq: u64,
    ) -> Result<LazyMinHeap, Refusal>
        ensures { Opening words.old limit factor seq words.new result }
    {
        limits::heap_with_factor(limit, words.len(), factor)?;
        let scores = LinkedHashMap::open(words, limit).unwrap();
        Ok(LazyMinHeap {
            scores,
            entries: 0,
            seq,
            factor: at_least_one(factor),
        })
    }

    pub fn set_auto_rebuild(&mut self, words: &[u64], factor: usize) -> Result<(), Refusal>
        ensures { Resetting words.now self.old factor self.new result }
    {
        limits::heap_with_factor(self.scores.capacity, words.len(), factor)?;
        self.factor = at_least_one(factor);
        Ok(())
    }

    pub fn auto_rebuild_factor(self, words: &[u64]) -> Result<usize, Refusal>
        ensures { Asking words.now self factor_of result }
    {
        self.admitted(words.len())?;
        Ok(self.factor)
    }

    // Refusals 1 and 2, which every call on a heap has in common.
    fn admitted(self, size: usize) -> Result<(), Refusal>
        ensures { result ≡ heap_limits self.scores.capacity size }
    {
        limits::heap(self.scores.capacity, size)
    }

    // ---- how many

    pub fn len(self, words: &[u64]) -> Result<usize, Refusal>
        ensures { Asking words.now self len result }
    {
        self.admitted(words.len())?;
        Ok(self.scores.len)
    }

    pub fn is_empty(self, words: &[u64]) -> Result<bool, Refusal>
        ensures { Asking words.now self is_empty result }
    {
        self.admitted(words.len())?;
        Ok(self.scores.len == 0)
    }

    // Stale entries included.
    pub fn heap_len(self, words: &[u64]) -> Result<usize, Refusal>
        ensures { Asking words.now self heap_len result }
    {
        self.admitted(words.len())?;
        Ok(self.entries)
    }

    // How many keys hold at most this score.
    pub fn count_at_most(self, words: &[u64], score: u64) -> Result<usize, Refusal>
        ensures { Asking words.now self (at_most score) result }
    {
        self.admitted(words.len())?;
        Ok(self.count_within(words, score))
    }

    // ---- scores

    #[tactic(auto, using(crate::proofs::Calling::no_heap, crate::proofs::Asking::score_told, crate::proofs::Asking::score_none))]
    pub fn score_of(self, words: &[u64], key: u64) -> Result<Option<u64>, Refusal>
        ensures { Asking words.now self (score_of key) result }
    {
        self.admitted(words.len())?;
        let slot = self.scores.find(words, key).unwrap_or(None);
        Ok(slot.map(|s| self.scores.record(words, s).first))
    }

    // Holds a score for a key, in the place of the old one, which is the answer.
    pub fn update(
        &mut self,
        words: &mut [u64],
        key: u64,
        score: u64,
    ) -> Result<Counted<Option<u64>>, Refusal>
        ensures { Updating words.old self.old key score words.new self.new result }
    {
        self.admitted(words.len())?;
        let place = self.scores.seek(words, key).unwrap();
        if is_over(place, self.scores.len, self.scores.capacity) {
            return Err(Refusal::KeyLimitReached);
        }
        let seq = self.seq;
        let renumbered = self.fit_number(words);
        let at = self.place_after(words, seq, place, key);
        let answer = self.hold(words, at, key, score);
        let rebuilt = self.fit_entries(words, self.factor);
        Ok(Counted {
            answer,
            discarded: sum(renumbered, rebuilt),
        })
    }

    // Its entry stays, stale.
    pub fn remove(&mut self, words: &mut [u64], key: u64) -> Result<Counted<Option<u64>>, Refusal>
        ensures { Removing words.old self.old key words.new self.new result }
    {
        self.admitted(words.len())?;
        let answer = take_key(&mut self.scores, words, key);
        Ok(Counted {
            answer,
            discarded: 0,
        })
    }

    // The key of the least score, of equal ones that set first. Stale entries before it are discarded.
    pub fn peek_best(&mut self, words: &mut [u64]) -> Result<Counted<Option<(u64, u64)>>, Refusal>
        ensures { PeekingBest words.old self.old words.new self.new result }
    {
        self.admitted(words.len())?;
        let discarded = self.settle(words);
        let answer = best_of(self.top(words));
        Ok(Counted { answer, discarded })
    }

    pub fn pop_best(&mut self, words: &mut [u64]) -> Result<Counted<Option<(u64, u64)>>, Refusal>
        ensures { PoppingBest words.old self.old words.new self.new result }
    {
        self.take_best(words, u64::MAX)
    }

    // The same, where that key's score is at most this one. Else it answers that there is none, and the key stays.
    pub fn pop_at_most(
        &mut self,
        words: &mut [u64],
        score: u64,
    ) -> Result<Counted<Option<(u64, u64)>>, Refusal>
        ensures { PoppingAtMost words.old self.old score words.new self.new result }
    {
        self.take_best(words, score)
    }

    // Both pops: no score is above the largest word. (That this one takes the best, whatever its score, is
    // promised here: in the contract of `pop_at_most` the words are numbers of any size, so that it does not
    // follow there.)
    fn take_best(
        &mut self,
        words: &mut [u64],
        score: u64,
    ) -> Result<Counted<Option<(u64, u64)>>, Refusal>
        ensures within { PoppingAtMost words.old self.old score words.new self.new result }
        ensures all { score ≡ 2 ^ 64 - 1 → PoppingBest words.old self.old words.new self.new result }
    {
        self.admitted(words.len())?;
        let discarded = self.settle(words);
        let best = within(self.top(words), score);
        self.take_top(words, best);
        Ok(Counted {
            answer: best_of(best),
            discarded,
        })
    }

    // ---- all entries at once: these answer how many they discarded

    pub fn rebuild(&mut self, words: &mut [u64]) -> Result<usize, Refusal>
        ensures { RebuildingNow words.old self.old words.new self.new result }
    {
        self.admitted(words.len())?;
        Ok(self.rebuild_within(words))
    }

    // Rebuilds if there are more entries than factor times the keys held.
    pub fn maybe_rebuild(&mut self, words: &mut [u64], factor: usize) -> Result<usize, Refusal>
        ensures { RebuildingMaybe words.old self.old factor words.new self.new result }
    {
        limits::heap_with_factor(self.scores.capacity, words.len(), factor)?;
        Ok(self.fit_entries(words, factor))
    }

    pub fn renumber_seqs(&mut self, words: &mut [u64]) -> Result<usize, Refusal>
        ensures { RenumberingNow words.old self.old words.new self.new result }
    {
        self.admitted(words.len())?;
        Ok(self.renumber_within(words))
    }

    // The next number stays.
    pub fn clear(&mut self, words: &mut [u64]) -> Result<usize, Refusal>
        ensures { Clearing words.old self.old words.new self.new result }
    {
        self.admitted(words.len())?;
        let discarded = self.surplus();
        self.scores.clear(words).unwrap();
        self.entries = 0;
        Ok(discarded)
    }

    // ---- the check

    // Whether words and numbers form a heap. It refuses nothing.
    pub fn check(self, words: &[u64]) -> bool
        ensures { Checking words.now self result }
    {
        self.admitted(words.len()).is_ok() && self.is_sound(words) && self.is_valid(words)
    }

    // The numbers are within their limits, and the words hold a map of scores and a binary heap of entries.
    fn is_sound(self, words: &[u64]) -> bool
        requires { Room (length words.now) self.scores.capacity }
        ensures { Sound words.now self result }
    {
        (1..=8).contains(&self.factor)
            && self.entries <= 8 * self.scores.capacity
            && self.scores.check(words)
            && binary_heap::is_heap(&words[layout::entries(self.scores.capacity)], self.entries)
    }

    // Scores and entries go together. (The tally is as large as any heap needs, since the memory is fixed.)
    fn is_valid(self, words: &[u64]) -> bool
        requires { Room (length words.now) self.scores.capacity }
        ensures { Agreeing words.now self result }
    {
        let mut tally = [0u64; 4096];
        walks::tally_entries(words, self.scores, self.entries, self.seq, &mut tally)
            && walks::records_valid(words, self.scores, self.seq, &tally)
    }

    // ---- the entries

    fn push(&mut self, words: &mut [u64], entry: Entry)
        requires { Room (length words.old) self.old.scores.capacity }
        ensures { Pushing words.old self.old entry words.new self.new }
    {
        binary_heap::push(
            &mut words[layout::entries(self.scores.capacity)],
            &mut self.entries,
            entry,
        );
    }

    fn pop(&mut self, words: &mut [u64])
        requires { Room (length words.old) self.old.scores.capacity }
        ensures { Popping words.old self.old words.new self.new }
    {
        binary_heap::pop(
            &mut words[layout::entries(self.scores.capacity)],
            &mut self.entries,
        );
    }

    fn top(self, words: &[u64]) -> Option<Entry>
        requires { Room (length words.now) self.scores.capacity }
        ensures { Peeking words.now self result }
    {
        binary_heap::peek(&words[layout::entries(self.scores.capacity)], self.entries)
    }

    // How many entries have at most this score, stale ones included.
    fn count_entries(self, words: &[u64], score: u64) -> usize
        requires { Room (length words.now) self.scores.capacity }
        ensures { CountingEntries words.now self score result }
    {
        binary_heap::count_at_most(
            &words[layout::entries(self.scores.capacity)],
            self.entries,
            score,
        )
    }

    // Whether an entry's score and number are those that its key holds.
    fn is_live(self, words: &[u64], entry: Entry) -> bool
        ensures { Living words.now self entry result }
    {
        walks::live_slot(words, self.scores, entry).is_some()
    }

    // No stale entry is at the top.
    fn is_settled(self, words: &[u64]) -> bool
        requires { Room (length words.now) self.scores.capacity }
        ensures { Settled words.now self result }
    {
        self.top(words).is_none_or(|e| self.is_live(words, e))
    }

    // Discards stale entries from the top, up to the first live one, and answers how many.
    fn settle(&mut self, words: &mut [u64]) -> usize
        requires { Room (length words.old) self.old.scores.capacity }
        ensures { Discarding words.old self.old words.new self.new result }
    {
        let entries = self.entries;
        for discarded in 0..entries {
            if self.is_settled(words) {
                return discarded;
            }
            self.pop(words);
        }
        entries
    }

    // How many keys hold at most this score. Each has an entry, and no entry's score is below that of the
    // first, live or stale: where that is above this one the answer is 0, without a walk. Where there are as
    // many entries as keys none is stale, and the entries are counted: they stand side by side, while the keys
    // are links apart.
    fn count_within(self, words: &[u64], score: u64) -> usize
        requires { Room (length words.now) self.scores.capacity }
        ensures { CountingWithin words.now self score result }
    {
        let Some(e) = self.top(words) else {
            return 0;
        };
        if score < e.score {
            return 0;
        }
        if self.entries == self.scores.len {
            return self.count_entries(words, score);
        }
        walks::count_at_most(words, self.scores, score)
    }

    // ---- rebuilding and renumbering

    // The entries that are more than the keys held.
    fn surplus(self) -> usize
        ensures { result ≡ self.entries - self.scores.len }
    {
        self.entries.saturating_sub(self.scores.len)
    }

    // The live entries alone, pushed in sequence order: the walk is from the earliest set to the latest. It has
    // a turn for each key held, so that it is not begun on numbers with more keys than the limit, which are no
    // heap's. It answers how many entries there were more.
    fn rebuild_within(&mut self, words: &mut [u64]) -> usize
        requires { Room (length words.old) self.old.scores.capacity }
        ensures { Rebuilding words.old self.old words.new self.new result }
    {
        let discarded = self.surplus();
        let scores = self.scores;
        if scores.capacity < scores.len {
            return discarded;
        }
        self.entries = 0;
        let mut slot = scores.last(words).unwrap_or(None);
        for _ in 0..scores.len {
            let r = walks::record_at(words, scores, slot);
            self.push(
                words,
                Entry {
                    score: r.first,
                    seq: r.second,
                    key: r.key,
                },
            );
            slot = walks::slot_before(words, scores, slot);
        }
        discarded
    }

    // The same, after numbers from 0 in the old sequence order.
    fn renumber_within(&mut self, words: &mut [u64]) -> usize
        requires { Room (length words.old) self.old.scores.capacity }
        ensures { Renumbering words.old self.old words.new self.new result }
    {
        walks::number(words, self.scores);
        self.seq = self.scores.len as u64;
        self.rebuild_within(words)
    }

    // Renumbers where the next number is the last, and answers how many entries it discarded.
    fn fit_number(&mut self, words: &mut [u64]) -> usize
        requires { Room (length words.old) self.old.scores.capacity }
        ensures { Fitting words.old self.old words.new self.new result }
    {
        if self.seq < u64::MAX {
            return 0;
        }
        self.renumber_within(words)
    }

    // Rebuilds where there are too many entries, and answers how many it discarded. (A factor or keys beyond the limits
    // are no heap's, and nothing is rebuilt there.)
    fn fit_entries(&mut self, words: &mut [u64], factor: usize) -> usize
        requires { Room (length words.old) self.old.scores.capacity }
        ensures { Trimming words.old self.old factor words.new self.new result }
    {
        if 8 < factor || 4096 < self.scores.len {
            return 0;
        }
        if !too_many(factor, self.entries, self.scores.len) {
            return 0;
        }
        self.rebuild_within(words)
    }

    // ---- setting a score

    // The place of a key after `fit_number`: looked for again only where that renumbered, since else the words are
    // those of before.
    fn place_after(self, words: &[u64], seq: u64, place: Probe, key: u64) -> Probe
        requires room { Room (length words.now) self.scores.capacity }
        requires kept { seq < 2 ^ 64 - 1 → place_of words.now self.scores key ≡ Ok place }
        ensures { place_of words.now self.scores key ≡ Ok result }
    {
        if seq < u64::MAX {
            return place;
        }
        self.scores.seek(words, key).unwrap()
    }

    // Holds the score at the key's place under the next number, and pushes its entry.
    fn hold(&mut self, words: &mut [u64], place: Probe, key: u64, score: u64) -> Option<u64>
        requires room { Room (length words.old) self.old.scores.capacity }
        requires place { place_of words.old self.old.scores key ≡ Ok place }
        ensures { Holding words.old self.old key score words.new self.new result }
    {
        let seq = self.seq;
        let answer = store_at(
            &mut self.scores,
            words,
            place,
            Record {
                key,
                first: score,
                second: seq,
            },
        );
        self.seq = seq.saturating_add(1);
        self.push(words, Entry { score, seq, key });
        answer
    }

    // Takes the first entry out, and its key; nothing where none is given.
    fn take_top(&mut self, words: &mut [u64], top: Option<Entry>)
        requires { Room (length words.old) self.old.scores.capacity }
        ensures { TakingTop words.old self.old top words.new self.new }
    {
        if let Some(e) = top {
            self.pop(words);
            take_key(&mut self.scores, words, e.key);
        }
    }
}
