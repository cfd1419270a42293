// What the crate `time` answers, as it is told.
ghost use Rattle.std.specs.Prelude.{◌≡◌, Ok, Err};
ghost use Rattle.time.specs.Clock.{clock_at, advanced, outcome_of, clock_after};

use crate::question::Question;
use std::fmt;
use time::{Duration, MockClock, Refusal, Tick, duration_to_ticks};

#[derive(Clone, Copy)]
pub enum Answer {
    Ticks(u64),
    Told(bool),
    Expired,
    // The answer is the lent clock's; where the two differ, it says so.
    Stepped { lent: Step, by_value: Step },
}

// What a step of the clock answers, and what the clock reads after it.
#[derive(Clone, Copy)]
pub struct Step {
    answer: Result<(), Refusal>,
    tick: Tick,
}

impl Answer {
    pub(crate) fn to(question: Question, clock: &mut MockClock) -> Result<Answer, Refusal> {
        let answer = match question {
            Question::Ticks(d) => Answer::Ticks(duration_to_ticks(d)?.0),
            Question::Zero(d) => Answer::Told(d.is_zero()),
            Question::Deadline(start, d) => {
                Answer::Ticks(start.deadline_from(duration_to_ticks(d)?).as_u64())
            }
            Question::Remaining(deadline, tick) => match deadline.remaining_at(tick) {
                Some(ttl) => Answer::Ticks(ttl.0),
                None => Answer::Expired,
            },
            Question::Clock(tick) => {
                *clock = MockClock::with_tick(tick);
                Answer::Ticks(clock.now().as_u64())
            }
            Question::Set(tick) => {
                let by_value = Step::to(clock.set(tick));
                let lent = Step::set(clock, tick);
                Answer::Stepped { lent, by_value }
            }
            Question::Advance(d) => {
                let by_value = match clock.advance(d) {
                    Ok(after) => Step::to(after),
                    Err(why) => Step::refused(*clock, why),
                };
                let lent = Step::advance(clock, d);
                Answer::Stepped { lent, by_value }
            }
        };
        Ok(answer)
    }
}

impl Step {
    fn to(clock: MockClock) -> Step
        ensures answer { result.answer ≡ Ok tt }
        ensures tick { result.tick ≡ clock.tick }
    {
        Step {
            answer: Ok(()),
            tick: clock.now(),
        }
    }

    fn refused(clock: MockClock, why: Refusal) -> Step
        ensures answer { result.answer ≡ Err why }
        ensures tick { result.tick ≡ clock.tick }
    {
        Step {
            answer: Err(why),
            tick: clock.now(),
        }
    }

    // The steps in the lent form.
    fn set(clock: &mut MockClock, tick: Tick) -> Step
        ensures reached { clock.new ≡ clock_at tick.0 }
        ensures answer { result.answer ≡ Ok tt }
        ensures told { result.tick ≡ clock.new.tick }
    {
        time::set(clock, tick);
        Step::to(*clock)
    }

    fn advance(clock: &mut MockClock, delta: Duration) -> Step
        ensures reached { clock.new ≡ clock_after clock.old (advanced clock.old delta) }
        ensures answer { result.answer ≡ outcome_of (advanced clock.old delta) }
        ensures told { result.tick ≡ clock.new.tick }
    {
        match time::advance(clock, delta) {
            Ok(()) => Step::to(*clock),
            Err(why) => Step::refused(*clock, why),
        }
    }
}

impl fmt::Display for Answer {
    fn fmt<W: fmt::Write>(&self, f: &mut fmt::Formatter<W>) -> fmt::Result {
        match self {
            Answer::Ticks(n) => write!(f, "{n}"),
            Answer::Told(true) => write!(f, "yes"),
            Answer::Told(false) => write!(f, "no"),
            Answer::Expired => write!(f, "expired"),
            Answer::Stepped { lent, by_value } => {
                write!(f, "{lent}")?;
                if by_value.tick != lent.tick {
                    write!(f, ", by value {}", by_value.tick.as_u64())?;
                }
                if by_value.answer != lent.answer {
                    write!(f, ", by value another outcome")?;
                }
                Ok(())
            }
        }
    }
}

impl fmt::Display for Step {
    fn fmt<W: fmt::Write>(&self, f: &mut fmt::Formatter<W>) -> fmt::Result {
        match self.answer {
            Ok(()) => write!(f, "{}", self.tick.as_u64()),
            Err(why) => write!(f, "refused {}", why.number()),
        }
    }
}
