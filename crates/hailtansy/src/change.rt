// Calls that may change the book.
ghost use Rattle.time.specs.Duration.{duration_of};
ghost use Rattle.expiring_model.specs.Model.{get, insert, insert_with_ttl, remove, clear, set_ttl, purge_expired, next_deadline, touch, pop_lru};
ghost use Rattle.hailtansy.specs.Calls.{Called};

use crate::tell;
use time::{Duration, Tick};

// The value of a key, which becomes the most recent.
#[unsafe(no_mangle)]
pub extern "C" fn hailtansy_get(
    numbers: &mut [u64],
    words: &mut [u64],
    tick: u64,
    key: u64,
    answer: &mut [u64],
) -> u64
    ensures { Called numbers.old words.old tick (get key) answer.old numbers.new words.new answer.new result }
{
    tell::change(numbers, words, answer, |numbers, words| {
        expiring::get(numbers, words, Tick(tick), key)
    })
}

// Stores a value, with the default lifetime if there is one; the answer is the value that it replaced.
#[unsafe(no_mangle)]
pub extern "C" fn hailtansy_insert(
    numbers: &mut [u64],
    words: &mut [u64],
    tick: u64,
    key: u64,
    value: u64,
    answer: &mut [u64],
) -> u64
    ensures { Called numbers.old words.old tick (insert key value) answer.old numbers.new words.new answer.new result }
{
    tell::change(numbers, words, answer, |numbers, words| {
        expiring::insert(numbers, words, Tick(tick), key, value)
    })
}

// Stores a value with a lifetime; one of exactly zero removes the key instead.
#[unsafe(no_mangle)]
pub extern "C" fn hailtansy_insert_with_ttl(
    numbers: &mut [u64],
    words: &mut [u64],
    tick: u64,
    key: u64,
    value: u64,
    secs: u64,
    nanos: u64,
    answer: &mut [u64],
) -> u64
    ensures { Called numbers.old words.old tick (insert_with_ttl key value (duration_of secs nanos)) answer.old numbers.new words.new answer.new result }
{
    let ttl = Duration::of(secs, nanos);
    tell::change(numbers, words, answer, |numbers, words| {
        expiring::insert_with_ttl(numbers, words, Tick(tick), key, value, ttl)
    })
}

// Removes a key; the answer is its value.
#[unsafe(no_mangle)]
pub extern "C" fn hailtansy_remove(
    numbers: &mut [u64],
    words: &mut [u64],
    tick: u64,
    key: u64,
    answer: &mut [u64],
) -> u64
    ensures { Called numbers.old words.old tick (remove key) answer.old numbers.new words.new answer.new result }
{
    tell::change(numbers, words, answer, |numbers, words| {
        expiring::remove(numbers, words, Tick(tick), key)
    })
}

// Removes all.
#[unsafe(no_mangle)]
pub extern "C" fn hailtansy_clear(
    numbers: &mut [u64],
    words: &mut [u64],
    tick: u64,
    answer: &mut [u64],
) -> u64
    ensures { Called numbers.old words.old tick clear answer.old numbers.new words.new answer.new result }
{
    tell::change_book(
        numbers,
        words,
        answer,
        |book, words| book.clear(words, Tick(tick)),
    )
}

// Gives a stored key a lifetime.
#[unsafe(no_mangle)]
pub extern "C" fn hailtansy_set_ttl(
    numbers: &mut [u64],
    words: &mut [u64],
    tick: u64,
    key: u64,
    secs: u64,
    nanos: u64,
    answer: &mut [u64],
) -> u64
    ensures { Called numbers.old words.old tick (set_ttl key (duration_of secs nanos)) answer.old numbers.new words.new answer.new result }
{
    let ttl = Duration::of(secs, nanos);
    tell::change(numbers, words, answer, |numbers, words| {
        expiring::set_ttl(numbers, words, Tick(tick), key, ttl)
    })
}

// Removes all that has expired; the answer is how many deadlines that were.
#[unsafe(no_mangle)]
pub extern "C" fn hailtansy_purge_expired(
    numbers: &mut [u64],
    words: &mut [u64],
    tick: u64,
    answer: &mut [u64],
) -> u64
    ensures { Called numbers.old words.old tick purge_expired answer.old numbers.new words.new answer.new result }
{
    tell::change_book(
        numbers,
        words,
        answer,
        |book, words| book.purge_expired(words, Tick(tick)),
    )
}

// The key that is due next, and its deadline.
#[unsafe(no_mangle)]
pub extern "C" fn hailtansy_next_deadline(
    numbers: &mut [u64],
    words: &mut [u64],
    tick: u64,
    answer: &mut [u64],
) -> u64
    ensures { Called numbers.old words.old tick next_deadline answer.old numbers.new words.new answer.new result }
{
    tell::change_book(
        numbers,
        words,
        answer,
        |book, words| book.next_deadline(words, Tick(tick)),
    )
}

// Makes a key the most recent.
#[unsafe(no_mangle)]
pub extern "C" fn hailtansy_touch(
    numbers: &mut [u64],
    words: &mut [u64],
    tick: u64,
    key: u64,
    answer: &mut [u64],
) -> u64
    ensures { Called numbers.old words.old tick (touch key) answer.old numbers.new words.new answer.new result }
{
    tell::change_book(
        numbers,
        words,
        answer,
        |book, words| book.touch(words, Tick(tick), key),
    )
}

// Removes the least recent item; the answer is that item.
#[unsafe(no_mangle)]
pub extern "C" fn hailtansy_pop_lru(
    numbers: &mut [u64],
    words: &mut [u64],
    tick: u64,
    answer: &mut [u64],
) -> u64
    ensures { Called numbers.old words.old tick pop_lru answer.old numbers.new words.new answer.new result }
{
    tell::change_book(
        numbers,
        words,
        answer,
        |book, words| book.pop_lru(words, Tick(tick)),
    )
}
