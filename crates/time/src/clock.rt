// A clock that moves only when its owner says so. `set` and `advance` stand twice, of a clock by value and of one
// lent: the scope document asks for both. The lent ones take the step by value.
ghost use Rattle.std.specs.Prelude.{◌≡◌};
ghost use Rattle.time.specs.Clock.{clock_at, advanced, outcome_of, clock_after};

use crate::duration::{Duration, duration_to_ticks};
use crate::refusal::Refusal;
use crate::tick::Tick;

#[derive(Clone, Copy)]
pub struct MockClock {
    pub tick: Tick,
}

impl MockClock {
    pub fn new() -> Self
        ensures { result ≡ clock_at 0 }
    {
        MockClock::with_tick(Tick(0))
    }

    pub fn with_tick(tick: Tick) -> Self
        ensures { result ≡ clock_at tick.0 }
    {
        MockClock { tick }
    }

    pub fn now(self) -> Tick
        ensures { result ≡ self.tick }
    {
        self.tick
    }

    // Any tick, also an earlier one.
    pub fn set(self, tick: Tick) -> Self
        ensures { result ≡ clock_at tick.0 }
    {
        MockClock::with_tick(tick)
    }

    // Moves on by the whole milliseconds of `delta`, and ends at most at u64::MAX - 1, even from u64::MAX.
    #[tactic(auto, unfolding(crate::specs::Duration::ticks_of, crate::specs::Clock::advanced))]
    pub fn advance(self, delta: Duration) -> Result<MockClock, Refusal>
        ensures { result ≡ advanced self delta }
    {
        let ticks = duration_to_ticks(delta)?;
        Ok(MockClock {
            tick: self.tick.deadline_from(ticks),
        })
    }
}

// The owner's clock, lent to be set.
pub fn set(clock: &mut MockClock, tick: Tick)
    ensures { clock.new ≡ clock_at tick.0 }
{
    *clock = clock.set(tick);
}

// The owner's clock, lent to be moved on. A refused step leaves it as it was.
pub fn advance(clock: &mut MockClock, delta: Duration) -> Result<(), Refusal>
    ensures outcome { result ≡ outcome_of (advanced clock.old delta) }
    ensures reached { clock.new ≡ clock_after clock.old (advanced clock.old delta) }
{
    *clock = clock.advance(delta)?;
    Ok(())
}
