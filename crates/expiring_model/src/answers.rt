// What the calls answer.
use time::{Refusal, Tick, TtlTicks};

#[derive(Clone, Copy)]
pub enum Answer {
    Nothing,
    Value(u64),
    Yes,
    No,
    // The four answers of `ttl_status`; a live key's are what remains, and the deadline.
    Missing,
    Immortal,
    Expired,
    Live(TtlTicks, Tick),
    Count(u64),
    // A key and its deadline.
    Due(u64, Tick),
    // A key and its value.
    Item(u64, u64),
    // 0 is the most recent.
    Rank(u64),
    Done,
    Refused(Refusal),
}
