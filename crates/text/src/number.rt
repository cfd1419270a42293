// Numbers in base ten.
// Not by std's `parse`: it reads a whole `str`, and takes `+7` and `007`. Here a number has one text.
ghost use Rattle.std.specs.Prelude.{◌+◌, ◌*◌, ◌^◌, ◌<◌, SomeIff};
ghost use Rattle.text.specs.Reading.{ReadsNumber, ReadsOn};

// The number that a line starts with, and what the line has behind it.
#[tactic(auto, unfolding(crate::specs::Reading::read_number))]
pub fn number(line: &[u8]) -> Option<(u64, &[u8])>
    ensures { ReadsNumber line.now result }
{
    match line {
        [b'0', rest @ ..] => Some((0, rest)),
        [first @ b'1'..=b'9', rest @ ..] => digits(rest, u64::from(*first - b'0')),
        _ => None,
    }
}

// A value with a digit behind it, where that is not too large.
pub fn with_digit(value: u64, digit: u64) -> Option<u64>
    ensures { SomeIff result (value * 10 + digit < 2 ^ 64) (value * 10 + digit) }
{
    value.checked_mul(10)?.checked_add(digit)
}

// The number that a value starts and the digits of a line go on with, and what the line has behind it.
#[tactic(auto, using(crate::proofs::Places::digits_end, crate::proofs::Places::digits_until, crate::proofs::Places::digits_over, crate::proofs::Places::digit_more))]
fn digits(line: &[u8], value: u64) -> Option<(u64, &[u8])>
    ensures { ReadsOn line.now value result }
{
    let mut value = value;
    for (i, byte) in line.iter().enumerate() {
        if !byte.is_ascii_digit() {
            return Some((value, &line[i..]));
        }
        value = with_digit(value, u64::from(*byte - b'0'))?;
    }
    Some((value, &[]))
}
