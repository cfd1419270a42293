// One call: it is made, and its answer written as the i-th. A call that looks stores no numbers. Each arm reads
// the words of its own call: read before the operations are told apart, all six would be read for each.
ghost use Rattle.std.specs.Prelude.{◌≡◌, ◌+◌, ◌*◌, ◌<◌, ◌≤◌, length};
ghost use Rattle.replay_expiring.specs.Words.{asked_at, operations};
ghost use Rattle.replay_expiring.specs.Runs.{Turn};

use crate::call::asked_at;
use crate::tell;

// Twelve numbers by a contract: `expiring` is lent a slice, so an array would be lent as one again.
pub fn turn(
    numbers: &mut [u64],
    words: &mut [u64],
    operation: u64,
    calls: &[u64],
    answers: &mut [u64],
    i: usize,
)
    requires { (12 ≤ length numbers.old) × (6 * i + 6 ≤ length calls.now) × (4 * i + 4 ≤ length answers.old) × (operation ≡ (asked_at calls.now i).operation) × (operation < operations) }
    ensures { Turn (asked_at calls.now i) i numbers.old words.old answers.old numbers.new words.new answers.new }
{
    // An operation is a number, since from C any may come, and the table has to stand somewhere.
    match operation {
        0 => {
            let asked = asked_at(calls, i);
            let said = expiring::insert(numbers, words, asked.tick, asked.key, asked.value);
            tell::store_said(answers, i, said);
        }
        1 => {
            let asked = asked_at(calls, i);
            let said = expiring::insert_with_ttl(
                numbers,
                words,
                asked.tick,
                asked.key,
                asked.value,
                asked.ttl,
            );
            tell::store_said(answers, i, said);
        }
        2 => {
            let asked = asked_at(calls, i);
            let said = expiring::get(numbers, words, asked.tick, asked.key);
            tell::store_said(answers, i, said);
        }
        3 => {
            let asked = asked_at(calls, i);
            let said = expiring::remove(numbers, words, asked.tick, asked.key);
            tell::store_said(answers, i, said);
        }
        4 => clear(numbers, words, calls, answers, i),
        5 => {
            let asked = asked_at(calls, i);
            let said = expiring::set_ttl(numbers, words, asked.tick, asked.key, asked.ttl);
            tell::store_said(answers, i, said);
        }
        6 => purge_expired(numbers, words, calls, answers, i),
        7 => {
            let asked = asked_at(calls, i);
            let reply = expiring::book_in(numbers).next_deadline(words, asked.tick);
            tell::store_reply(numbers, answers, i, reply);
        }
        8 => {
            let asked = asked_at(calls, i);
            let reply = expiring::book_in(numbers).touch(words, asked.tick, asked.key);
            tell::store_reply(numbers, answers, i, reply);
        }
        9 => {
            let asked = asked_at(calls, i);
            let reply = expiring::book_in(numbers).pop_lru(words, asked.tick);
            tell::store_reply(numbers, answers, i, reply);
        }
        10 => {
            let asked = asked_at(calls, i);
            let reply = expiring::book_in(numbers).contains(words, asked.tick, asked.key);
            tell::store_answer(answers, i, reply);
        }
        11 => {
            let asked = asked_at(calls, i);
            let reply = expiring::book_in(numbers).peek(words, asked.tick, asked.key);
            tell::store_answer(answers, i, reply);
        }
        12 => {
            let asked = asked_at(calls, i);
            let reply = expiring::book_in(numbers).ttl_status(words, asked.tick, asked.key);
            tell::store_answer(answers, i, reply);
        }
        13 => recency_rank(numbers, words, calls, answers, i),
        14 => {
            let asked = asked_at(calls, i);
            let reply = expiring::book_in(numbers).live_len(words, asked.tick);
            tell::store_answer(answers, i, reply);
        }
        15 => {
            let asked = asked_at(calls, i);
            let reply = expiring::book_in(numbers).expirations(words, asked.tick);
            tell::store_answer(answers, i, reply);
        }
        _ => {
            let asked = asked_at(calls, i);
            let reply = expiring::book_in(numbers).peek_lru(words, asked.tick);
            tell::store_answer(answers, i, reply);
        }
    }
}

// The three calls that are no part of the turn: the book's own functions for these are not compiled in place, so that
// numbers and reply go through memory, and in the loop that memory would be cleared at each turn, of whatever call.
#[inline(never)]
fn clear(numbers: &mut [u64], words: &mut [u64], calls: &[u64], answers: &mut [u64], i: usize)
    requires { (12 ≤ length numbers.old) × (6 * i + 6 ≤ length calls.now) × (4 * i + 4 ≤ length answers.old) × ((asked_at calls.now i).operation ≡ 4) }
    ensures { Turn (asked_at calls.now i) i numbers.old words.old answers.old numbers.new words.new answers.new }
{
    let asked = asked_at(calls, i);
    let reply = expiring::book_in(numbers).clear(words, asked.tick);
    tell::store_reply(numbers, answers, i, reply);
}

#[inline(never)]
fn purge_expired(
    numbers: &mut [u64],
    words: &mut [u64],
    calls: &[u64],
    answers: &mut [u64],
    i: usize,
)
    requires { (12 ≤ length numbers.old) × (6 * i + 6 ≤ length calls.now) × (4 * i + 4 ≤ length answers.old) × ((asked_at calls.now i).operation ≡ 6) }
    ensures { Turn (asked_at calls.now i) i numbers.old words.old answers.old numbers.new words.new answers.new }
{
    let asked = asked_at(calls, i);
    let reply = expiring::book_in(numbers).purge_expired(words, asked.tick);
    tell::store_reply(numbers, answers, i, reply);
}

#[inline(never)]
fn recency_rank(
    numbers: &mut [u64],
    words: &mut [u64],
    calls: &[u64],
    answers: &mut [u64],
    i: usize,
)
    requires { (12 ≤ length numbers.old) × (6 * i + 6 ≤ length calls.now) × (4 * i + 4 ≤ length answers.old) × ((asked_at calls.now i).operation ≡ 13) }
    ensures { Turn (asked_at calls.now i) i numbers.old words.old answers.old numbers.new words.new answers.new }
{
    let asked = asked_at(calls, i);
    let reply = expiring::book_in(numbers).recency_rank(words, asked.tick, asked.key);
    tell::store_answer(answers, i, reply);
}
