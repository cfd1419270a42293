// Walks over the held keys and over the entries.
//
// A walk over the keys has a turn for each. In words that are no map's it may meet the end before. The turns that
// are left are then over records of zeros in `number`, and in `rebuild_within` of heap.rt; `count_at_most` counts
// one for each and returns, and `records_valid` answers false. Numbers with more keys than the limit, which are no
// map's, are not walked; `records_valid` does not ask, since it comes after the map's own check.
//
// The map refuses nothing where the heap has room, and elsewhere a refusal reads as no key: `unwrap_or(None)`.
//
// No walk is an iterator: `number`, and `rebuild_within` of heap.rt, write the words between their steps, and for
// `count_at_most` and `records_valid` an iterator would be longer than they are.
ghost use Rattle.std.specs.Prelude.{◌≡◌, length, get_or};
ghost use Rattle.lazy_heap.specs.Words.{Room};
ghost use Rattle.lazy_heap.specs.Steps.{Numbered};
ghost use Rattle.lazy_heap.specs.Walks.{seen, RecordAt, SlotBefore, CountingAtMost, LivingAt, Tallying, RecordsValid};

use crate::layout;
use binary_heap::Entry;
use linked_hash_map::{LinkedHashMap, Record};

// The record at a slot; zeros where there is none.
#[tactic(auto, using(crate::proofs::Slots::record_told, crate::proofs::Slots::record_none))]
pub fn record_at(words: &[u64], scores: LinkedHashMap, slot: Option<usize>) -> Record
    ensures { RecordAt words.now scores slot result }
{
    slot.map_or(Record::default(), |s| scores.record(words, s))
}

// The slot of the key set after this one.
#[tactic(auto, using(crate::proofs::Slots::before_told, crate::proofs::Slots::before_none))]
pub fn slot_before(words: &[u64], scores: LinkedHashMap, slot: Option<usize>) -> Option<usize>
    ensures { SlotBefore words.now scores slot result }
{
    scores.previous(words, slot?).unwrap_or(None)
}

// The slot of the key whose live entry this is.
pub fn live_slot(words: &[u64], scores: LinkedHashMap, entry: Entry) -> Option<usize>
    ensures { LivingAt words.now scores entry result }
{
    let s = scores.find(words, entry.key).unwrap_or(None)?;
    let r = scores.record(words, s);
    (r.first == entry.score && r.second == entry.seq).then_some(s)
}

// How many keys hold at most this score. Where the ring ends it returns, with one for each turn that is left: with
// an Option carried from turn to turn, as in `number`, each key took longer.
pub fn count_at_most(words: &[u64], scores: LinkedHashMap, score: u64) -> usize
    ensures { CountingAtMost words.now scores score result }
{
    if scores.capacity < scores.len {
        return 0;
    }
    let Some(mut slot) = scores.first(words).unwrap_or(None) else {
        return scores.len;
    };
    let mut n = 0;
    for turn in 0..scores.len {
        let r = scores.record(words, slot);
        n += (r.first <= score) as usize;
        let Some(next) = scores.next(words, slot).unwrap_or(None) else {
            return n + (scores.len - turn - 1);
        };
        slot = next;
    }
    n
}

// Numbers the keys from 0, the earliest set first.
pub fn number(words: &mut [u64], scores: LinkedHashMap)
    ensures { Numbered words.old scores words.new }
{
    if scores.capacity < scores.len {
        return;
    }
    let mut slot = scores.last(words).unwrap_or(None);
    for number in 0..scores.len {
        let r = record_at(words, scores, slot);
        scores.set_payload(
            words,
            Record {
                second: number as u64,
                ..r
            },
        );
        slot = slot_before(words, scores, slot);
    }
}

// ---- the check

// From the latest set to the earliest the numbers fall, the next number is above all, and each key's live entry
// was seen once.
pub fn records_valid(words: &[u64], scores: LinkedHashMap, seq: u64, tally: &[u64]) -> bool
    ensures { RecordsValid words.now scores seq tally.now result }
{
    let mut bound = seq;
    let mut slot = scores.first(words).unwrap_or(None);
    for _ in 0..scores.len {
        let Some(s) = slot else {
            return false;
        };
        let r = scores.record(words, s);
        if bound <= r.second || times(tally, s) != 1 {
            return false;
        }
        bound = r.second;
        slot = scores.next(words, s).unwrap_or(None);
    }
    true
}

// Every entry's number is below the next. The tally has a word for each slot, 0 at first, for the live entries
// seen of the key there: none, one, or more, which is 2. (It counts, and stops at 2; an enum would be no plainer.)
pub fn tally_entries(
    words: &[u64],
    scores: LinkedHashMap,
    entries: usize,
    seq: u64,
    tally: &mut [u64],
) -> bool
    requires { Room (length words.now) scores.capacity }
    ensures { Tallying words.now scores entries seq tally.old tally.new result }
{
    for i in 0..entries {
        let e = binary_heap::entry_at(&words[layout::entries(scores.capacity)], entries, i);
        if seq <= e.seq {
            return false;
        }
        see(tally, live_slot(words, scores, e));
    }
    true
}

fn see(tally: &mut [u64], slot: Option<usize>)
    ensures { tally.new ≡ seen tally.old slot }
{
    if let Some(s) = slot {
        if s < tally.len() {
            tally[s] = tally[s].saturating_add(1).min(2);
        }
    }
}

fn times(tally: &[u64], s: usize) -> u64
    ensures { result ≡ get_or tally.now s 0 }
{
    tally.get(s).copied().unwrap_or(0)
}
