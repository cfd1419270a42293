// Points in time, and what a deadline means at one.
ghost use Rattle.std.specs.Prelude.{◌≡◌};
ghost use Rattle.time.specs.Deadline.{deadline_from, is_expired_at, remaining_at};

use crate::duration::TtlTicks;

// u64::MAX stands for "never" in the source, so no deadline and no advanced clock reaches it.
const LAST_TICK: u64 = u64::MAX - 1;

#[derive(Clone, Copy, PartialEq, Eq, PartialOrd, Ord)]
pub struct Tick(pub u64);

impl Tick {
    // Named as the Rust's own.
    pub fn as_u64(self) -> u64
        ensures { result ≡ self.0 }
    {
        self.0
    }

    // The deadline of a lifetime that starts at this tick.
    #[tactic(auto, unfolding(crate::specs::Deadline::deadline_from))]
    pub fn deadline_from(self, ttl: TtlTicks) -> Tick
        ensures { result ≡ deadline_from self ttl }
    {
        Tick(self.0.saturating_add(ttl.0).min(LAST_TICK))
    }

    // Whether a deadline at this tick has come when the clock reads `tick`.
    #[tactic(auto, unfolding(crate::specs::Deadline::is_expired_at))]
    pub fn is_expired_at(self, tick: Tick) -> bool
        ensures { result ≡ is_expired_at self tick }
    {
        self <= tick
    }

    // What is left of a deadline at this tick when the clock reads `tick`: nothing once it has come.
    #[tactic(auto, unfolding(crate::specs::Deadline::is_expired_at, crate::specs::Deadline::remaining_at))]
    pub fn remaining_at(self, tick: Tick) -> Option<TtlTicks>
        ensures { result ≡ remaining_at self tick }
    {
        if self.is_expired_at(tick) {
            return None;
        }
        Some(TtlTicks(self.0 - tick.0))
    }
}
