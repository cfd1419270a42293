// What a line asks.
use time::{Duration, Tick};

#[derive(Clone, Copy)]
pub enum Question {
    Ticks(Duration),
    Zero(Duration),
    Deadline(Tick, Duration),
    Remaining(Tick, Tick),
    Clock(Tick),
    Set(Tick),
    Advance(Duration),
}

impl Question {
    pub(crate) fn of(line: &[u8]) -> Option<Question> {
        let letter = *line.first()?;
        let [a, b, c] = numbers(line)?;
        // The letter comes from outside, and the table has to stand somewhere.
        match letter {
            b't' => Some(Question::Ticks(Duration::of(a, b))),
            b'z' => Some(Question::Zero(Duration::of(a, b))),
            b'd' => Some(Question::Deadline(Tick(a), Duration::of(b, c))),
            b'r' => Some(Question::Remaining(Tick(a), Tick(b))),
            b'c' => Some(Question::Clock(Tick(a))),
            b's' => Some(Question::Set(Tick(a))),
            b'a' => Some(Question::Advance(Duration::of(a, b))),
            _ => None,
        }
    }
}

// The numbers behind the name, 0 where there is none. Digits behind a further space still belong to the third.
fn numbers(line: &[u8]) -> Option<[u64; 3]> {
    let mut numbers = [0u64; 3];
    for (i, field) in line.split(|byte| *byte == b' ').skip(1).enumerate() {
        let number = &mut numbers[i.min(2)];
        *number = with_digits(*number, field)?;
    }
    Some(numbers)
}

fn with_digits(number: u64, digits: &[u8]) -> Option<u64> {
    digits.iter().try_fold(number, |n, byte| {
        if !byte.is_ascii_digit() {
            return None;
        }
        text::with_digit(n, u64::from(byte - b'0'))
    })
}
