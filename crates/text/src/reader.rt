// Reading by pieces: a text that a line starts with, and a number behind it. Compiled in place: a caller's text is
// compared by a length that is known there.
ghost use Rattle.text.specs.Reading.{ReadsAfter, ReadsBetween};

use crate::number;

// The number behind a text that a line starts with, and what the line has behind it.
#[tactic(auto, using(crate::proofs::Formats::starts_none, crate::proofs::Formats::starts_some))]
#[inline(always)]
pub fn number_after<'a>(line: &'a [u8], text: &[u8]) -> Option<(u64, &'a [u8])>
    ensures { ReadsAfter line.now text.now result }
{
    number::number(line.strip_prefix(text)?)
}

// The number that a line has between two texts, where they are all of it.
#[tactic(auto, using(crate::proofs::Formats::ends_is))]
#[inline(always)]
pub fn number_between(line: &[u8], before: &[u8], behind: &[u8]) -> Option<u64>
    ensures { ReadsBetween line.now before.now behind.now result }
{
    let (number, rest) = number_after(line, before)?;
    (rest == behind).then_some(number)
}
