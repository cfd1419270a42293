// The clock layer: durations, ticks, deadlines, a clock that its owner moves or lends, and the refusals of every layer.
//
// A tick is one millisecond. A `Tick` is a point in time and a `TtlTicks` a length of it, two types, so that
// neither can stand for the other. Every function takes any numbers, ends, and equals a definition of specs/.
//
// The Rust beside it: docs/src/time.rs (`duration_to_ticks`, `MockClock`), docs/src/traits.rs (`Tick`) and
// docs/src/policy/expiring.rs (`deadline_from`, `is_expired_at`, the remaining time of `ttl_status`).
#![tactic(auto)]

mod clock;
mod duration;
mod refusal;
mod tick;

pub use clock::{MockClock, advance, set};
pub use duration::{Duration, TtlTicks, duration_to_ticks};
pub use refusal::Refusal;
pub use tick::Tick;
