// Calls that look, and change nothing.
ghost use Rattle.expiring_model.specs.Model.{contains, peek, ttl_status, recency_rank, live_len, expirations, peek_lru};
ghost use Rattle.hailtansy.specs.Calls.{Looked};

use crate::tell;
use time::Tick;

// Whether a key is stored and has not expired.
#[unsafe(no_mangle)]
pub extern "C" fn hailtansy_contains(
    numbers: &[u64],
    words: &[u64],
    tick: u64,
    key: u64,
    answer: &mut [u64],
) -> u64
    ensures { Looked numbers.now words.now tick (contains key) answer.old answer.new result }
{
    tell::look(
        numbers,
        answer,
        |book| book.contains(words, Tick(tick), key),
    )
}

// The value of a key, which keeps its place.
#[unsafe(no_mangle)]
pub extern "C" fn hailtansy_peek(
    numbers: &[u64],
    words: &[u64],
    tick: u64,
    key: u64,
    answer: &mut [u64],
) -> u64
    ensures { Looked numbers.now words.now tick (peek key) answer.old answer.new result }
{
    tell::look(numbers, answer, |book| book.peek(words, Tick(tick), key))
}

// Whether a key is missing, immortal, expired or live, and for how long.
#[unsafe(no_mangle)]
pub extern "C" fn hailtansy_ttl_status(
    numbers: &[u64],
    words: &[u64],
    tick: u64,
    key: u64,
    answer: &mut [u64],
) -> u64
    ensures { Looked numbers.now words.now tick (ttl_status key) answer.old answer.new result }
{
    tell::look(
        numbers,
        answer,
        |book| book.ttl_status(words, Tick(tick), key),
    )
}

// How many keys are more recent.
#[unsafe(no_mangle)]
pub extern "C" fn hailtansy_recency_rank(
    numbers: &[u64],
    words: &[u64],
    tick: u64,
    key: u64,
    answer: &mut [u64],
) -> u64
    ensures { Looked numbers.now words.now tick (recency_rank key) answer.old answer.new result }
{
    tell::look(
        numbers,
        answer,
        |book| book.recency_rank(words, Tick(tick), key),
    )
}

// How many are stored, less the expired deadlines held.
#[unsafe(no_mangle)]
pub extern "C" fn hailtansy_live_len(
    numbers: &[u64],
    words: &[u64],
    tick: u64,
    answer: &mut [u64],
) -> u64
    ensures { Looked numbers.now words.now tick live_len answer.old answer.new result }
{
    tell::look(numbers, answer, |book| book.live_len(words, Tick(tick)))
}

// How many have expired so far.
#[unsafe(no_mangle)]
pub extern "C" fn hailtansy_expirations(
    numbers: &[u64],
    words: &[u64],
    tick: u64,
    answer: &mut [u64],
) -> u64
    ensures { Looked numbers.now words.now tick expirations answer.old answer.new result }
{
    tell::look(numbers, answer, |book| book.expirations(words, Tick(tick)))
}

// The least recent item.
#[unsafe(no_mangle)]
pub extern "C" fn hailtansy_peek_lru(
    numbers: &[u64],
    words: &[u64],
    tick: u64,
    answer: &mut [u64],
) -> u64
    ensures { Looked numbers.now words.now tick peek_lru answer.old answer.new result }
{
    tell::look(numbers, answer, |book| book.peek_lru(words, Tick(tick)))
}
