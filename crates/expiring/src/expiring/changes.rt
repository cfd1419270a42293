// Calls that set and drop deadlines and values, on a book whose numbers stand in words. The steps take the twelve
// as an array; what a caller hands over is a slice. Each requires `RoomIn`, since the words are the caller's.
#![tactic(auto, using(crate::proofs::Changing::admitted_ready))]

ghost use Rattle.std.specs.Prelude.{◌≡◌, ℕ, length};
ghost use Rattle.expiring_model.specs.declared.answers.Answer.TheVariants as answers;
ghost use Rattle.expiring_model.specs.Model.{set, drop, get, remove, insert, insert_with_ttl, set_ttl};
ghost use Rattle.fast_lru_model.specs.Model.{Items, value_of, without};
ghost use Rattle.fast_lru.specs.declared.lru.FastLru.{FastLru};
ghost use Rattle.fast_lru.specs.Calls as lru;
ghost use Rattle.expiring.specs.Numbers.{lru_in, book_in, with_expiration};
ghost use Rattle.expiring.specs.Calls.{SettingTtl};
ghost use Rattle.expiring.specs.Changes.{RoomIn, Stay, reply_in, admitted, saying, told, Setting, Dropping, Valuing, Getting, Putting, Taking, Concluding, Changing};
ghost use Rattle.expiring.specs.Steps.{Moved, Inserting, Removing};

use crate::answers::Reply;
use crate::numbers;
use expiring_answers::{has_come, of_found};
use expiring_model::Answer;
use fast_lru::FastLru;
use lazy_heap_model::Counted;
use time::{Duration, Refusal, Tick, TtlTicks};

// What a call on the book's own struct replies.
pub(crate) fn reply_in(numbers: &[u64; 12], said: Counted<Answer>) -> Reply
    ensures { result ≡ reply_in numbers.now said }
{
    Reply {
        book: numbers::book_in(numbers),
        answer: said.answer,
        discarded: said.discarded,
    }
}

// An answer of a call that discarded nothing.
pub(crate) fn saying(answer: Answer) -> Counted<Answer>
    ensures { result ≡ saying answer }
{
    Counted {
        answer,
        discarded: 0,
    }
}

// What is said of a call that may be refused.
pub(crate) fn told(said: Result<Counted<Answer>, Refusal>) -> Counted<Answer>
    ensures { result ≡ told said }
{
    said.unwrap_or_else(refused)
}

// A refused call. The two larger steps that may be refused call this themselves: a `Result` of theirs goes through
// memory, and its reader waits for it, by which `set_ttl` took an eighth more time.
fn refused(why: Refusal) -> Counted<Answer>
    ensures { result ≡ saying (answers.Refused why) }
{
    saying(Answer::Refused(why))
}

// ---- steps

fn set_deadline(
    numbers: &mut [u64; 12],
    words: &mut [u64],
    key: u64,
    deadline: Tick,
) -> Result<Counted<Option<Tick>>, Refusal>
    requires { RoomIn numbers.old (length words.old) }
    ensures { Setting numbers.old words.old key deadline numbers.new words.new result }
{
    let mut index = numbers::index_in(numbers);
    let start = 64 + 8 * numbers[0] as usize;
    let dated = index.set_deadline(&mut words[start..], key, deadline);
    numbers::store_index(numbers, index);
    dated
}

fn drop_deadline(numbers: &mut [u64; 12], words: &mut [u64], key: u64) -> Option<Tick>
    requires { RoomIn numbers.old (length words.old) }
    ensures { Dropping numbers.old words.old key numbers.new words.new result }
{
    let mut index = numbers::index_in(numbers);
    let start = 64 + 8 * numbers[0] as usize;
    let removed = index.remove(&mut words[start..], key).unwrap();
    numbers::store_held(numbers, index);
    removed.answer
}

// A call of the list, whose numbers stand in words. It answers the value that the key had; only what is no book
// may the list refuse.
fn on_list<F: FnOnce(&mut FastLru, &mut [u64]) -> Result<Option<u64>, Refusal>>(
    numbers: &mut [u64; 12],
    words: &mut [u64],
    call: F,
) -> Option<u64>
    requires callable { F.IsAlwaysCallable call }
    ensures { (k : ℕ) (f : FastLru → Items → Items) → ((l w r l' w' : _) → F.post call l w r l' w' → lru.Changing w.now l.now (value_of k) (f l.now) w'.now l'.now r) → Valuing numbers.old words.old k (f (lru_in numbers.old)) numbers.new words.new result }
{
    let mut list = numbers::list_in(numbers);
    let value = call(&mut list, words);
    numbers::store_list(numbers, list);
    value.unwrap_or(None)
}

#[inline(always)]
fn get_value(numbers: &mut [u64; 12], words: &mut [u64], key: u64) -> Option<u64>
    ensures { Getting numbers.old words.old key numbers.new words.new result }
{
    on_list(numbers, words, |list, words| list.get(words, key))
}

fn put_value(numbers: &mut [u64; 12], words: &mut [u64], key: u64, value: u64) -> Option<u64>
    ensures { Putting numbers.old words.old key value numbers.new words.new result }
{
    on_list(numbers, words, |list, words| list.insert(words, key, value))
}

fn drop_value(numbers: &mut [u64; 12], words: &mut [u64], key: u64) -> Option<u64>
    ensures { Taking numbers.old words.old key numbers.new words.new result }
{
    on_list(numbers, words, |list, words| list.remove(words, key))
}

// One expiration more; the count stops at u64::MAX.
#[tactic(auto, unfolding(crate::specs::Numbers::with_expiration))]
fn count_expiration(numbers: &mut [u64; 12])
    ensures { numbers.new ≡ with_expiration numbers.old }
{
    numbers[11] = numbers[11].saturating_add(1);
}

// The answer is the value that the list had for the key, unless the key's old deadline had come.
fn concluded(numbers: &mut [u64; 12], found: Option<u64>, old: Option<Tick>, tick: Tick) -> Answer
    ensures { Concluding numbers.old found old tick numbers.new result }
{
    if has_come(Ok(old), tick) {
        count_expiration(numbers);
        return Answer::Nothing;
    }
    of_found(Ok(found))
}

fn drop_both(numbers: &mut [u64; 12], words: &mut [u64], key: u64)
    requires { RoomIn numbers.old (length words.old) }
    ensures { Stay numbers.old numbers.new × Moved words.old (book_in numbers.old) (drop key) (without key) words.new (book_in numbers.new) 0 }
{
    drop_deadline(numbers, words, key);
    drop_value(numbers, words, key);
}

// ---- the larger steps

fn insert_until(
    numbers: &mut [u64; 12],
    words: &mut [u64],
    tick: Tick,
    key: u64,
    value: u64,
    deadline: Tick,
) -> Counted<Answer>
    requires { RoomIn numbers.old (length words.old) }
    ensures { Stay numbers.old numbers.new × Inserting words.old (book_in numbers.old) tick key value (set key deadline) words.new (reply_in numbers.new result) }
{
    match set_deadline(numbers, words, key, deadline) {
        Err(why) => refused(why),
        Ok(dated) => {
            let found = put_value(numbers, words, key, value);
            Counted {
                answer: concluded(numbers, found, dated.answer, tick),
                discarded: dated.discarded,
            }
        }
    }
}

fn insert_forever(
    numbers: &mut [u64; 12],
    words: &mut [u64],
    tick: Tick,
    key: u64,
    value: u64,
) -> Counted<Answer>
    requires { RoomIn numbers.old (length words.old) }
    ensures { Stay numbers.old numbers.new × Inserting words.old (book_in numbers.old) tick key value (drop key) words.new (reply_in numbers.new result) }
{
    let old = drop_deadline(numbers, words, key);
    let found = put_value(numbers, words, key, value);
    saying(concluded(numbers, found, old, tick))
}

fn remove_within(
    numbers: &mut [u64; 12],
    words: &mut [u64],
    tick: Tick,
    key: u64,
) -> Counted<Answer>
    requires { RoomIn numbers.old (length words.old) }
    ensures { Stay numbers.old numbers.new × Removing words.old (book_in numbers.old) tick key words.new (reply_in numbers.new result) }
{
    let old = drop_deadline(numbers, words, key);
    let found = drop_value(numbers, words, key);
    saying(concluded(numbers, found, old, tick))
}

// A new lifetime of so many ticks removes the key.
const NO_TICKS: u64 = 0;

fn set_ttl_within(
    numbers: &mut [u64; 12],
    words: &mut [u64],
    tick: Tick,
    key: u64,
    ticks: TtlTicks,
) -> Counted<Answer>
    requires { RoomIn numbers.old (length words.old) }
    ensures { Stay numbers.old numbers.new × SettingTtl words.old (book_in numbers.old) tick key ticks words.new (reply_in numbers.new result) }
{
    let book = numbers::book_in(numbers);
    if !book.is_stored(words, key) {
        return saying(Answer::No);
    }
    if book.is_expired(words, tick, key) {
        drop_both(numbers, words, key);
        count_expiration(numbers);
        return saying(Answer::No);
    }
    if ticks.0 == NO_TICKS {
        drop_both(numbers, words, key);
        return saying(Answer::No);
    }
    match set_deadline(numbers, words, key, tick.deadline_from(ticks)) {
        Err(why) => refused(why),
        Ok(dated) => Counted {
            answer: Answer::Yes,
            discarded: dated.discarded,
        },
    }
}

// ---- the calls. Any numbers may be handed to them: fewer than twelve are refused as too few words. They are compiled
// in place, as seven of expiring.rt: two crates call each, and as functions of their own they would hand the answer
// over in memory. A call is a line over its step.

fn admitted(numbers: &[u64], size: usize) -> Result<(), Refusal>
    ensures { result ≡ admitted numbers.now size }
{
    if numbers.len() < 12 {
        return Err(Refusal::TooFewWords);
    }
    limits::book(numbers[0] as usize, numbers[3] as usize, size)
}

// It moves the key to the front; an expired one it removes.
#[inline(always)]
pub fn get(numbers: &mut [u64], words: &mut [u64], tick: Tick, key: u64) -> Counted<Answer>
    ensures { Changing numbers.old words.old tick (get key) numbers.new words.new result }
{
    told(try_get(numbers, words, tick, key))
}

#[inline(always)]
fn try_get(
    numbers: &mut [u64],
    words: &mut [u64],
    tick: Tick,
    key: u64,
) -> Result<Counted<Answer>, Refusal>
    ensures { Changing numbers.old words.old tick (get key) numbers.new words.new (told result) }
{
    admitted(numbers, words.len())?;
    let numbers = numbers.first_chunk_mut().unwrap();
    let book = numbers::book_in(numbers);
    if book.is_expired(words, tick, key) {
        drop_both(numbers, words, key);
        count_expiration(numbers);
        return Ok(saying(Answer::Nothing));
    }
    Ok(saying(of_found(Ok(get_value(numbers, words, key)))))
}

#[inline(always)]
pub fn remove(numbers: &mut [u64], words: &mut [u64], tick: Tick, key: u64) -> Counted<Answer>
    ensures { Changing numbers.old words.old tick (remove key) numbers.new words.new result }
{
    told(try_remove(numbers, words, tick, key))
}

#[inline(always)]
fn try_remove(
    numbers: &mut [u64],
    words: &mut [u64],
    tick: Tick,
    key: u64,
) -> Result<Counted<Answer>, Refusal>
    ensures { Changing numbers.old words.old tick (remove key) numbers.new words.new (told result) }
{
    admitted(numbers, words.len())?;
    let numbers = numbers.first_chunk_mut().unwrap();
    Ok(remove_within(numbers, words, tick, key))
}

// With the default lifetime, or with none.
#[inline(always)]
pub fn insert(
    numbers: &mut [u64],
    words: &mut [u64],
    tick: Tick,
    key: u64,
    value: u64,
) -> Counted<Answer>
    ensures { Changing numbers.old words.old tick (insert key value) numbers.new words.new result }
{
    told(try_insert(numbers, words, tick, key, value))
}

#[inline(always)]
fn try_insert(
    numbers: &mut [u64],
    words: &mut [u64],
    tick: Tick,
    key: u64,
    value: u64,
) -> Result<Counted<Answer>, Refusal>
    ensures { Changing numbers.old words.old tick (insert key value) numbers.new words.new (told result) }
{
    admitted(numbers, words.len())?;
    let numbers = numbers.first_chunk_mut().unwrap();
    let book = numbers::book_in(numbers);
    Ok(match book.default_ttl {
        Some(ttl) => insert_until(numbers, words, tick, key, value, tick.deadline_from(ttl)),
        None => insert_forever(numbers, words, tick, key, value),
    })
}

// Exactly zero removes the key.
#[inline(always)]
pub fn insert_with_ttl(
    numbers: &mut [u64],
    words: &mut [u64],
    tick: Tick,
    key: u64,
    value: u64,
    ttl: Duration,
) -> Counted<Answer>
    ensures { Changing numbers.old words.old tick (insert_with_ttl key value ttl) numbers.new words.new result }
{
    told(try_insert_with_ttl(numbers, words, tick, key, value, ttl))
}

#[inline(always)]
fn try_insert_with_ttl(
    numbers: &mut [u64],
    words: &mut [u64],
    tick: Tick,
    key: u64,
    value: u64,
    ttl: Duration,
) -> Result<Counted<Answer>, Refusal>
    ensures { Changing numbers.old words.old tick (insert_with_ttl key value ttl) numbers.new words.new (told result) }
{
    admitted(numbers, words.len())?;
    let numbers = numbers.first_chunk_mut().unwrap();
    let ticks = time::duration_to_ticks(ttl)?;
    if ttl.is_zero() {
        return Ok(remove_within(numbers, words, tick, key));
    }
    let deadline = tick.deadline_from(ticks);
    Ok(insert_until(numbers, words, tick, key, value, deadline))
}

// 0 ticks remove the key.
#[inline(always)]
pub fn set_ttl(
    numbers: &mut [u64],
    words: &mut [u64],
    tick: Tick,
    key: u64,
    ttl: Duration,
) -> Counted<Answer>
    ensures { Changing numbers.old words.old tick (set_ttl key ttl) numbers.new words.new result }
{
    told(try_set_ttl(numbers, words, tick, key, ttl))
}

#[inline(always)]
fn try_set_ttl(
    numbers: &mut [u64],
    words: &mut [u64],
    tick: Tick,
    key: u64,
    ttl: Duration,
) -> Result<Counted<Answer>, Refusal>
    ensures { Changing numbers.old words.old tick (set_ttl key ttl) numbers.new words.new (told result) }
{
    admitted(numbers, words.len())?;
    let numbers = numbers.first_chunk_mut().unwrap();
    let ticks = time::duration_to_ticks(ttl)?;
    Ok(set_ttl_within(numbers, words, tick, key, ticks))
}
