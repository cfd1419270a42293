// A call in six words.
// By index, as the words are C's and contracts speak of the i-th call: chunks of an iterator are no plainer here.
// Room is a contract's fact, as the memory is fixed: the slices are the caller's.
ghost use Rattle.std.specs.Prelude.{◌≡◌, ◌+◌, ◌*◌, ◌≤◌, length};
ghost use Rattle.replay_expiring.specs.Words.{asked_at};

use time::{Duration, Tick};

#[derive(Clone, Copy)]
pub struct Asked {
    // A number and no enum: it comes from a caller in C, of which any may come. There may be no such operation.
    pub operation: u64,
    pub tick: Tick,
    pub key: u64,
    pub value: u64,
    pub ttl: Duration,
}

// Which operation the i-th call asks for.
pub fn operation_at(calls: &[u64], i: usize) -> u64
    requires { 6 * i + 6 ≤ length calls.now }
    ensures { result ≡ (asked_at calls.now i).operation }
{
    calls[6 * i]
}

// The i-th call, counted from 0.
pub fn asked_at(calls: &[u64], i: usize) -> Asked
    requires { 6 * i + 6 ≤ length calls.now }
    ensures { result ≡ asked_at calls.now i }
{
    Asked {
        operation: calls[6 * i],
        tick: Tick(calls[6 * i + 1]),
        key: calls[6 * i + 2],
        value: calls[6 * i + 3],
        ttl: Duration::of(calls[6 * i + 4], calls[6 * i + 5]),
    }
}
