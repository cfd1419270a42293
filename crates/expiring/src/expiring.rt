// The book's calls.
#![tactic(auto, using(crate::proofs::Limits::limits_room))]

ghost use Rattle.std.specs.Prelude.{◌≡◌, ◌^◌, ◌<◌, length, Ok};
ghost use Rattle.time.specs.declared.tick.Tick.{Tick};
ghost use Rattle.limits.specs.Limits.{book_limits};
ghost use Rattle.expiring_model.specs.declared.answers.Answer.TheVariants as answers;
ghost use Rattle.expiring_model.specs.Model.{Call, contains, peek, get, insert, remove, clear, insert_with_ttl, ttl_status, set_ttl, purge_expired, live_len, expirations, next_deadline, touch, recency_rank, pop_lru, peek_lru, drop_all};
ghost use Rattle.expiring.specs.Book.{Room, capacity_of, limit_of, rest};
ghost use Rattle.expiring.specs.Calls.{Following, Looking, Updating, Opening, Checking, DeadlinesHeld, HeapLength};
ghost use Rattle.expiring.specs.Changes.{Changing};
ghost use Rattle.expiring.specs.Steps.{defaulted_by, with_expired, answering, telling, purging, DeadlineOf, Expired, Stored, StoredCount, ExpiredCount, Moved, same, PoppingExpired, Opened};

pub mod changes;

use crate::answers::Reply;
use crate::numbers;
use changes::saying;
use expiration_index::ExpirationIndex;
use expiring_answers::{has_come, of_due, of_found, of_oldest, of_rank, of_told, status_of};
use expiring_model::Answer;
use fast_lru::FastLru;
use lazy_heap_model::Counted;
use time::{Duration, Refusal, Tick, TtlTicks};

// The book's numbers; all else is in the words. A caller that keeps numbers keeps those of `default`, all 0 and
// no default lifetime, where an opening is refused.
#[derive(Clone, Copy, Default)]
pub struct Expiring {
    pub inner: FastLru,
    pub index: ExpirationIndex,
    pub default_ttl: Option<TtlTicks>,
    pub expirations: u64,
}

// The default lifetime in ticks, where there is one.
fn default_of(default_ttl: Option<Duration>) -> Result<Option<TtlTicks>, Refusal>
    ensures { result ≡ defaulted_by default_ttl }
{
    default_ttl
        .map(|ttl| time::duration_to_ticks(ttl))
        .transpose()
}

// A fresh list, and a fresh index in the words behind it.
fn open_within(
    words: &mut [u64],
    capacity: usize,
    limit: usize,
    seq: u64,
    default_ttl: Option<TtlTicks>,
) -> Expiring
    requires { Room (length words.old) capacity limit }
    ensures { Opened words.old capacity limit seq default_ttl words.new result }
{
    let inner = FastLru::new(words, capacity).unwrap();
    let start = 64 + 8 * capacity;
    let index = ExpirationIndex::open(&mut words[start..], limit, seq).unwrap();
    Expiring {
        inner,
        index,
        default_ttl,
        expirations: 0,
    }
}

// Seven calls are compiled in place, and what they do too: two crates or three call each, and as functions of their
// own they would hand book and reply over in memory. Calls that look alike are a line each over a step with `?`.
// (One function with a closure for all was tried, and proves: `contains` by itself then took 310 instructions for 285.)
impl Expiring {
    // ---- opening

    // Room for `capacity` values and `limit` deadlines, whose sequence numbers start at `seq`.
    pub fn open(
        words: &mut [u64],
        capacity: usize,
        limit: usize,
        seq: u64,
        default_ttl: Option<Duration>,
    ) -> Result<Expiring, Refusal>
        ensures { Opening words.old capacity limit seq default_ttl words.new result }
    {
        limits::book(capacity, limit, words.len())?;
        let default_ttl = default_of(default_ttl)?;
        Ok(open_within(words, capacity, limit, seq, default_ttl))
    }

    // ---- what is stored

    #[inline(always)]
    pub fn contains(self, words: &[u64], tick: Tick, key: u64) -> Reply
        ensures { Following words.now self tick (contains key) words.now result }
    {
        self.answered(self.try_contains(words, tick, key))
    }

    // It moves nothing.
    #[inline(always)]
    pub fn peek(self, words: &[u64], tick: Tick, key: u64) -> Reply
        ensures { Following words.now self tick (peek key) words.now result }
    {
        self.answered(self.try_peek(words, tick, key))
    }

    // It moves the key to the front; an expired one it removes.
    pub fn get(self, words: &mut [u64], tick: Tick, key: u64) -> Reply
        ensures { Following words.old self tick (get key) words.new result }
    {
        self.on_numbers(words, |numbers, words| {
            changes::get(numbers, words, tick, key)
        })
    }

    pub fn remove(self, words: &mut [u64], tick: Tick, key: u64) -> Reply
        ensures { Following words.old self tick (remove key) words.new result }
    {
        self.on_numbers(words, |numbers, words| {
            changes::remove(numbers, words, tick, key)
        })
    }

    // With the default lifetime, or with none.
    pub fn insert(self, words: &mut [u64], tick: Tick, key: u64, value: u64) -> Reply
        ensures { Following words.old self tick (insert key value) words.new result }
    {
        self.on_numbers(words, |numbers, words| {
            changes::insert(numbers, words, tick, key, value)
        })
    }

    // Exactly zero removes the key.
    pub fn insert_with_ttl(
        self,
        words: &mut [u64],
        tick: Tick,
        key: u64,
        value: u64,
        ttl: Duration,
    ) -> Reply
        ensures { Following words.old self tick (insert_with_ttl key value ttl) words.new result }
    {
        self.on_numbers(words, |numbers, words| {
            changes::insert_with_ttl(numbers, words, tick, key, value, ttl)
        })
    }

    pub fn clear(mut self, words: &mut [u64], _tick: Tick) -> Reply
        ensures { Following words.old self _tick clear words.new result }
    {
        let said = self.try_clear(words);
        self.told(said)
    }

    // ---- lifetimes

    #[inline(always)]
    pub fn ttl_status(self, words: &[u64], tick: Tick, key: u64) -> Reply
        ensures { Following words.now self tick (ttl_status key) words.now result }
    {
        self.answered(self.try_ttl_status(words, tick, key))
    }

    // 0 ticks remove the key.
    pub fn set_ttl(self, words: &mut [u64], tick: Tick, key: u64, ttl: Duration) -> Reply
        ensures { Following words.old self tick (set_ttl key ttl) words.new result }
    {
        self.on_numbers(words, |numbers, words| {
            changes::set_ttl(numbers, words, tick, key, ttl)
        })
    }

    // Drops every expired pair and its value.
    pub fn purge_expired(mut self, words: &mut [u64], tick: Tick) -> Reply
        ensures { Following words.old self tick purge_expired words.new result }
    {
        let said = self.try_purge_expired(words, tick);
        self.told(said)
    }

    // Values stored less deadlines expired, those of keys pushed out among them.
    #[inline(always)]
    pub fn live_len(self, words: &[u64], tick: Tick) -> Reply
        ensures { Following words.now self tick live_len words.now result }
    {
        self.answered(self.try_live_len(words, tick))
    }

    pub fn expirations(self, words: &[u64], _tick: Tick) -> Reply
        ensures { Following words.now self _tick expirations words.now result }
    {
        self.answered(self.try_expirations(words))
    }

    // How many deadlines are held, those of keys pushed out among them.
    pub fn deadlines_held(self, words: &[u64]) -> Result<usize, Refusal>
        ensures { DeadlinesHeld words.now self result }
    {
        self.limits(words.len())?;
        self.index.len(self.deadlines(words))
    }

    // How many entries are in the heap, live and stale.
    pub fn heap_len(self, words: &[u64]) -> Result<usize, Refusal>
        ensures { HeapLength words.now self result }
    {
        self.limits(words.len())?;
        self.index.heap_len(self.deadlines(words))
    }

    // The next due, keys pushed out included. Stale entries before it are discarded.
    #[inline(always)]
    pub fn next_deadline(mut self, words: &mut [u64], _tick: Tick) -> Reply
        ensures { Following words.old self _tick next_deadline words.new result }
    {
        let said = self.try_next_deadline(words);
        self.told(said)
    }

    // ---- the recency list's own calls

    #[inline(always)]
    pub fn touch(mut self, words: &mut [u64], _tick: Tick, key: u64) -> Reply
        ensures { Following words.old self _tick (touch key) words.new result }
    {
        let said = self.try_touch(words, key);
        self.told(said)
    }

    pub fn recency_rank(self, words: &[u64], _tick: Tick, key: u64) -> Reply
        ensures { Following words.now self _tick (recency_rank key) words.now result }
    {
        self.answered(self.try_recency_rank(words, key))
    }

    #[inline(always)]
    pub fn pop_lru(mut self, words: &mut [u64], _tick: Tick) -> Reply
        ensures { Following words.old self _tick pop_lru words.new result }
    {
        let said = self.try_pop_lru(words);
        self.told(said)
    }

    pub fn peek_lru(self, words: &[u64], _tick: Tick) -> Reply
        ensures { Following words.now self _tick peek_lru words.now result }
    {
        self.answered(self.try_peek_lru(words))
    }

    // ---- the check

    // Whether words and numbers form a book. It refuses nothing.
    pub fn check(self, words: &[u64]) -> bool
        ensures { Checking words.now self result }
    {
        self.limits(words.len()).is_ok()
            && self.inner.check(words)
            && self.index.check(self.deadlines(words))
    }

    // ---- what the calls do: an answer, or why it is refused

    #[inline(always)]
    fn try_contains(self, words: &[u64], tick: Tick, key: u64) -> Result<Answer, Refusal>
        ensures { Looking words.now self tick (contains key) result }
    {
        self.limits(words.len())?;
        if self.is_expired(words, tick, key) {
            return Ok(Answer::No);
        }
        Ok(of_told(self.inner.contains(words, key)))
    }

    #[inline(always)]
    fn try_peek(self, words: &[u64], tick: Tick, key: u64) -> Result<Answer, Refusal>
        ensures { Looking words.now self tick (peek key) result }
    {
        self.limits(words.len())?;
        if self.is_expired(words, tick, key) {
            return Ok(Answer::Nothing);
        }
        Ok(of_found(self.inner.peek(words, key)))
    }

    fn try_clear(&mut self, words: &mut [u64]) -> Result<Counted<Answer>, Refusal>
        ensures { (t : Tick) → Updating words.old self.old t clear words.new self.new result }
    {
        self.limits(words.len())?;
        // A list that refuses is as it was, and then the book is none.
        let _ = self.inner.clear(words);
        let discarded = self.drop_all_deadlines(words);
        Ok(Counted {
            answer: Answer::Done,
            discarded,
        })
    }

    #[inline(always)]
    fn try_ttl_status(self, words: &[u64], tick: Tick, key: u64) -> Result<Answer, Refusal>
        ensures { Looking words.now self tick (ttl_status key) result }
    {
        self.limits(words.len())?;
        if self.is_stored(words, key) {
            return Ok(status_of(Ok(self.deadline_of(words, key)), tick));
        }
        Ok(Answer::Missing)
    }

    fn try_purge_expired(
        &mut self,
        words: &mut [u64],
        tick: Tick,
    ) -> Result<Counted<Answer>, Refusal>
        ensures { Updating words.old self.old tick purge_expired words.new self.new result }
    {
        self.limits(words.len())?;
        Ok(self.purge_within(words, tick))
    }

    #[inline(always)]
    fn try_live_len(self, words: &[u64], tick: Tick) -> Result<Answer, Refusal>
        ensures { Looking words.now self tick live_len result }
    {
        self.limits(words.len())?;
        let stored = self.stored_count(words);
        let expired = self.expired_count(words, tick);
        Ok(Answer::Count(stored.saturating_sub(expired) as u64))
    }

    fn try_expirations(self, words: &[u64]) -> Result<Answer, Refusal>
        ensures { (t : Tick) → Looking words.now self t expirations result }
    {
        self.limits(words.len())?;
        Ok(Answer::Count(self.expirations))
    }

    #[inline(always)]
    fn try_next_deadline(&mut self, words: &mut [u64]) -> Result<Counted<Answer>, Refusal>
        ensures { (t : Tick) → Updating words.old self.old t next_deadline words.new self.new result }
    {
        self.limits(words.len())?;
        let start = 64 + 8 * self.inner.map.capacity;
        let due = self.index.next_deadline(&mut words[start..])?;
        Ok(Counted {
            answer: of_due(Ok(due.answer)),
            discarded: due.discarded,
        })
    }

    #[inline(always)]
    fn try_touch(&mut self, words: &mut [u64], key: u64) -> Result<Counted<Answer>, Refusal>
        ensures { (t : Tick) → Updating words.old self.old t (touch key) words.new self.new result }
    {
        self.limits(words.len())?;
        Ok(saying(of_told(self.inner.touch(words, key))))
    }

    fn try_recency_rank(self, words: &[u64], key: u64) -> Result<Answer, Refusal>
        ensures { (t : Tick) → Looking words.now self t (recency_rank key) result }
    {
        self.limits(words.len())?;
        Ok(of_rank(self.inner.recency_rank(words, key)))
    }

    #[inline(always)]
    fn try_pop_lru(&mut self, words: &mut [u64]) -> Result<Counted<Answer>, Refusal>
        ensures { (t : Tick) → Updating words.old self.old t pop_lru words.new self.new result }
    {
        self.limits(words.len())?;
        Ok(saying(of_oldest(self.inner.pop_lru(words))))
    }

    fn try_peek_lru(self, words: &[u64]) -> Result<Answer, Refusal>
        ensures { (t : Tick) → Looking words.now self t peek_lru result }
    {
        self.limits(words.len())?;
        Ok(of_oldest(self.inner.peek_lru(words)))
    }

    // ---- replies

    // The second clause holds by the type. It is for those that have the book by reference, of whose numbers no
    // proof knows that they are words.
    fn limits(self, size: usize) -> Result<(), Refusal>
        ensures told { result ≡ book_limits (capacity_of self) (limit_of self) size }
        ensures word { self.expirations < 2 ^ 64 }
    {
        limits::book(
            self.inner.map.capacity,
            self.index.heap.scores.capacity,
            size,
        )
    }

    // What was said of the book, or why nothing was.
    fn told(self, said: Result<Counted<Answer>, Refusal>) -> Reply
        ensures { result ≡ telling self said }
    {
        let said = changes::told(said);
        Reply {
            book: self,
            answer: said.answer,
            discarded: said.discarded,
        }
    }

    // The same of a call that discards nothing.
    fn answered(self, said: Result<Answer, Refusal>) -> Reply
        ensures { result ≡ answering self said }
    {
        self.told(said.map(saying))
    }

    // The reply of a call on numbers, which are the book's own.
    fn on_numbers<F: FnOnce(&mut [u64], &mut [u64]) -> Counted<Answer>>(
        self,
        words: &mut [u64],
        change: F,
    ) -> Reply
        requires { F.IsAlwaysCallable change }
        ensures { (t : Tick) (c : Call) → ((a b r a' b' : _) → F.post change a b r a' b' → Changing a.now b.now t c a'.now b'.now r) → Following words.old self t c words.new result }
    {
        let mut numbers = [0u64; 12];
        numbers::store_book(&mut numbers, self);
        let said = change(&mut numbers, words);
        changes::reply_in(&numbers, said)
    }

    // n more expirations; the count stops at u64::MAX.
    fn count_expired(&mut self, n: u64)
        ensures { self.new ≡ with_expired self.old n }
    {
        self.expirations = self.expirations.saturating_add(n);
    }

    // ---- what stands in the words. What the list refuses reads as if there were nothing; the index refuses nothing
    // that has room. (The words are the caller's, lent to each call: so no struct holds them with the numbers, and a
    // step requires `Room`.)

    // The words of the deadlines.
    fn deadlines(self, words: &[u64]) -> &[u64]
        requires { Room (length words.now) (capacity_of self) (limit_of self) }
        ensures { result.now ≡ rest words.now self }
    {
        let start = 64 + 8 * self.inner.map.capacity;
        &words[start..]
    }

    fn deadline_of(self, words: &[u64], key: u64) -> Option<Tick>
        requires { Room (length words.now) (capacity_of self) (limit_of self) }
        ensures { DeadlineOf words.now self key result }
    {
        self.index.deadline_of(self.deadlines(words), key).unwrap()
    }

    fn is_expired(self, words: &[u64], tick: Tick, key: u64) -> bool
        requires { Room (length words.now) (capacity_of self) (limit_of self) }
        ensures { Expired words.now self tick key result }
    {
        has_come(Ok(self.deadline_of(words, key)), tick)
    }

    fn is_stored(self, words: &[u64], key: u64) -> bool
        ensures { Stored words.now self key result }
    {
        self.inner.contains(words, key).unwrap_or(false)
    }

    fn stored_count(self, words: &[u64]) -> usize
        ensures { StoredCount words.now self result }
    {
        self.inner.len(words).unwrap_or(0)
    }

    fn expired_count(self, words: &[u64], tick: Tick) -> usize
        requires { Room (length words.now) (capacity_of self) (limit_of self) }
        ensures { ExpiredCount words.now self tick result }
    {
        self.index
            .expired_count(self.deadlines(words), tick)
            .unwrap()
    }

    // ---- steps on the deadlines

    // Answers how many entries of the heap it discarded.
    fn drop_all_deadlines(&mut self, words: &mut [u64]) -> usize
        requires { Room (length words.old) (capacity_of self.old) (limit_of self.old) }
        ensures { Moved words.old self.old drop_all same words.new self.new result }
    {
        let start = 64 + 8 * self.inner.map.capacity;
        self.index.clear(&mut words[start..]).unwrap()
    }

    // ---- the purge, on words and numbers within their limits

    // Takes the expired pairs out, the next due first. Each pair's entry has then left the heap, and counts as
    // discarded.
    fn purge_within(&mut self, words: &mut [u64], tick: Tick) -> Counted<Answer>
        requires { Room (length words.old) (capacity_of self.old) (limit_of self.old) }
        ensures { Updating words.old self.old tick purge_expired words.new self.new (Ok result) }
    {
        let rounds = self.index.heap.scores.capacity + 1;
        let mut stale: usize = 0;
        for count in 0..rounds {
            let popped = self.pop_expired(words, tick);
            stale = stale.saturating_add(popped.discarded);
            if !popped.answer {
                return self.purged(count, stale);
            }
        }
        self.purged(rounds, stale)
    }

    fn purged(&mut self, count: usize, stale: usize) -> Counted<Answer>
        ensures { telling self.new (Ok result) ≡ purging self.old count stale }
    {
        self.count_expired(count as u64);
        Counted {
            answer: Answer::Count(count as u64),
            discarded: count.saturating_add(stale),
        }
    }

    // Takes the next due out if it is expired, and its value. Answers whether it was, and how many stale entries
    // were discarded.
    fn pop_expired(&mut self, words: &mut [u64], tick: Tick) -> Counted<bool>
        requires { Room (length words.old) (capacity_of self.old) (limit_of self.old) }
        ensures { PoppingExpired words.old self.old tick words.new self.new result }
    {
        let start = 64 + 8 * self.inner.map.capacity;
        let popped = self.index.pop_expired(&mut words[start..], tick).unwrap();
        if let Some((key, _)) = popped.answer {
            let _ = self.inner.remove(words, key);
        }
        Counted {
            answer: popped.answer.is_some(),
            discarded: popped.discarded,
        }
    }
}
