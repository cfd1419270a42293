// A length of time, as `std::time::Duration` has it, and its whole milliseconds.
ghost use Rattle.std.specs.Prelude.{◌≡◌};
ghost use Rattle.time.specs.Duration.{duration_of, millis_of, is_zero, ticks_of};

use crate::refusal::Refusal;

pub const NANOS_PER_SEC: u32 = 1_000_000_000;

const NANOS_PER_MILLI: u32 = 1_000_000;

const MILLIS_PER_SEC: u64 = 1_000;

// Any two numbers: those with 1,000,000,000 nanoseconds or more are no `std::time::Duration`, and are refused.
#[derive(Clone, Copy)]
pub struct Duration {
    pub secs: u64,
    pub nanos: u32,
}

// A lifetime in ticks.
#[derive(Clone, Copy)]
pub struct TtlTicks(pub u64);

impl Duration {
    // Of two numbers from outside; no `From`, which would take a pair. Nanoseconds beyond 32 bits are taken for
    // the largest of 32 bits, which is refused too.
    pub fn of(secs: u64, nanos: u64) -> Duration
        ensures { result ≡ duration_of secs nanos }
    {
        Duration {
            secs,
            nanos: u32::try_from(nanos).unwrap_or(u32::MAX),
        }
    }

    // Exactly zero: 999,999 nanoseconds are not, though they have 0 ticks. (A derived `==` and `default`, for this
    // one test, would be no plainer than its two.)
    #[tactic(auto, unfolding(crate::specs::Duration::is_zero))]
    pub fn is_zero(self) -> bool
        ensures { result ≡ is_zero self }
    {
        self.secs == 0 && self.nanos == 0
    }

    // The whole milliseconds, at most u64::MAX. (std's `as_millis` answers a u128.)
    #[tactic(auto, unfolding(crate::specs::Duration::millis_of))]
    pub fn as_millis(self) -> u64
        ensures { result ≡ millis_of self }
    {
        let rest = (self.nanos / NANOS_PER_MILLI) as u64;
        self.secs
            .saturating_mul(MILLIS_PER_SEC)
            .saturating_add(rest)
    }
}

// The lifetime that a duration stands for.
#[tactic(auto, unfolding(crate::specs::Duration::is_duration, crate::specs::Duration::ticks_of))]
pub fn duration_to_ticks(duration: Duration) -> Result<TtlTicks, Refusal>
    ensures { result ≡ ticks_of duration }
{
    if duration.nanos < NANOS_PER_SEC {
        return Ok(TtlTicks(duration.as_millis()));
    }
    Err(Refusal::InvalidNanos)
}
