// The index's calls. Each leaves the work, and the refusals, to the heap, and reads its scores as deadlines.
ghost use Rattle.std.specs.Prelude.{◌≡◌};
ghost use Rattle.expiration_index.specs.Answers.{deadline_in, due_in};
ghost use Rattle.expiration_index.specs.Calls.{Opening, Clearing, Length, HeapLength, Emptiness, DeadlineOf, Containing, ExpiredCount, Setting, Removing, NextDeadline, PoppingExpired, Checking};

use lazy_heap::LazyMinHeap;
use lazy_heap_model::Counted;
use time::{Refusal, Tick};

// The index's numbers; the deadlines are in the words.
#[derive(Clone, Copy, Default)]
pub struct ExpirationIndex {
    pub heap: LazyMinHeap,
}

// A key's score is its deadline. (No `From` here and in `due_in`: it would stand away from the definition.)
fn deadline_in(score: Option<u64>) -> Option<Tick>
    ensures { result ≡ deadline_in score }
{
    score.map(Tick)
}

// The best is the next due.
fn due_in(best: Option<(u64, u64)>) -> Option<(u64, Tick)>
    ensures { result ≡ due_in best }
{
    best.map(|(key, deadline)| (key, Tick(deadline)))
}

// An answer read, beside the same number of discarded entries.
fn read<T, U, F: FnOnce(T) -> U>(told: Counted<T>, f: F) -> Counted<U>
    requires { F.pre f told.answer }
    ensures answer { F.post f told.answer result.answer }
    ensures discarded { result.discarded ≡ told.discarded }
{
    Counted {
        answer: f(told.answer),
        discarded: told.discarded,
    }
}

impl ExpirationIndex {
    // More entries than so many for each key held are not kept.
    const DEFAULT_REBUILD_FACTOR: usize = 2;

    // The empty index, in words of any contents. Its first deadline takes the sequence number `seq`.
    pub fn open(words: &mut [u64], limit: usize, seq: u64) -> Result<ExpirationIndex, Refusal>
        ensures { Opening words.old limit seq words.new result }
    {
        LazyMinHeap::open(words, limit, ExpirationIndex::DEFAULT_REBUILD_FACTOR, seq).map(
            |heap| ExpirationIndex { heap },
        )
    }

    // The keys that hold a deadline.
    #[tactic(auto, using(crate::proofs::Calling::length_asked))]
    pub fn len(self, words: &[u64]) -> Result<usize, Refusal>
        ensures { Length words.now self result }
    {
        self.heap.len(words)
    }

    #[tactic(auto, using(crate::proofs::Calling::emptiness))]
    pub fn is_empty(self, words: &[u64]) -> Result<bool, Refusal>
        ensures { Emptiness words.now self result }
    {
        self.heap.is_empty(words)
    }

    // The heap's entries, those of replaced and removed deadlines included.
    pub fn heap_len(self, words: &[u64]) -> Result<usize, Refusal>
        ensures { HeapLength words.now self result }
    {
        self.heap.heap_len(words)
    }

    // The next sequence number stays. Answers how many entries it discards.
    #[tactic(auto, using(crate::proofs::Calling::clearing))]
    pub fn clear(&mut self, words: &mut [u64]) -> Result<usize, Refusal>
        ensures { Clearing words.old self.old words.new self.new result }
    {
        self.heap.clear(words)
    }

    // Answers the deadline that it replaces.
    pub fn set_deadline(
        &mut self,
        words: &mut [u64],
        key: u64,
        deadline: Tick,
    ) -> Result<Counted<Option<Tick>>, Refusal>
        ensures { Setting words.old self.old key deadline words.new self.new result }
    {
        // Read for the proof alone: the contract says that this number is a word, and of a lent one a read tells it.
        let _seq = self.heap.seq;
        self.heap
            .update(words, key, deadline.0)
            .map(|replaced| read(replaced, deadline_in))
    }

    pub fn deadline_of(self, words: &[u64], key: u64) -> Result<Option<Tick>, Refusal>
        ensures { DeadlineOf words.now self key result }
    {
        self.heap.score_of(words, key).map(deadline_in)
    }

    pub fn contains(self, words: &[u64], key: u64) -> Result<bool, Refusal>
        ensures { Containing words.now self key result }
    {
        self.heap.score_of(words, key).map(|score| score.is_some())
    }

    // Answers the deadline that goes. Its entry stays, stale.
    pub fn remove(&mut self, words: &mut [u64], key: u64) -> Result<Counted<Option<Tick>>, Refusal>
        ensures { Removing words.old self.old key words.new self.new result }
    {
        self.heap
            .remove(words, key)
            .map(|removed| read(removed, deadline_in))
    }

    // The least deadline, of equal ones that set first. Stale entries before it are discarded.
    pub fn next_deadline(
        &mut self,
        words: &mut [u64],
    ) -> Result<Counted<Option<(u64, Tick)>>, Refusal>
        ensures { NextDeadline words.old self.old words.new self.new result }
    {
        self.heap
            .peek_best(words)
            .map(|peeked| read(peeked, due_in))
    }

    // Takes the next deadline, if it has come at `tick`.
    pub fn pop_expired(
        &mut self,
        words: &mut [u64],
        tick: Tick,
    ) -> Result<Counted<Option<(u64, Tick)>>, Refusal>
        ensures { PoppingExpired words.old self.old tick words.new self.new result }
    {
        self.heap
            .pop_at_most(words, tick.0)
            .map(|popped| read(popped, due_in))
    }

    // How many deadlines have come at `tick`.
    #[tactic(auto, using(crate::proofs::Calling::expired_asked))]
    pub fn expired_count(self, words: &[u64], tick: Tick) -> Result<usize, Refusal>
        ensures { ExpiredCount words.now self tick result }
    {
        self.heap.count_at_most(words, tick.0)
    }

    // Whether words and numbers form an index. It refuses nothing.
    pub fn check(self, words: &[u64]) -> bool
        ensures { Checking words.now self result }
    {
        self.heap.factor == ExpirationIndex::DEFAULT_REBUILD_FACTOR && self.heap.check(words)
    }
}
