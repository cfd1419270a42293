// The limits of the layers, from the map up to the book.
ghost use Rattle.std.specs.Prelude.{◌≡◌};
ghost use Rattle.limits.specs.Limits.{map_fits, list_limits, heap_limits, heap_limits_with, book_limits};

use time::Refusal;

// A map's refusals have no numbers: it is part of a list or of a heap, which refuse first.
#[tactic(auto, unfolding(crate::specs::Limits::map_fits))]
pub fn map(capacity: usize, size: usize) -> bool
    ensures { result ≡ map_fits capacity size }
{
    capacity <= 4096 && 8 * capacity + 58 <= size
}

// Refusals 1 and 2, of a capacity and a number of words.
#[tactic(auto, unfolding(crate::specs::Limits::list_limits))]
pub fn list(capacity: usize, size: usize) -> Result<(), Refusal>
    ensures { result ≡ list_limits capacity size }
{
    if 4096 < capacity {
        return Err(Refusal::LimitOutOfRange);
    }
    if size < 64 + 8 * capacity {
        return Err(Refusal::TooFewWords);
    }
    Ok(())
}

// Refusals 1 and 2, of a key limit and a number of words.
#[tactic(auto, unfolding(crate::specs::Limits::heap_limits))]
pub fn heap(limit: usize, size: usize) -> Result<(), Refusal>
    ensures { result ≡ heap_limits limit size }
{
    if !(1..=4096).contains(&limit) {
        return Err(Refusal::LimitOutOfRange);
    }
    if size < 64 + 32 * limit {
        return Err(Refusal::TooFewWords);
    }
    Ok(())
}

// And refusal 5, of a factor.
#[tactic(auto, unfolding(crate::specs::Limits::heap_limits_with))]
pub fn heap_with_factor(limit: usize, size: usize, factor: usize) -> Result<(), Refusal>
    ensures { result ≡ heap_limits_with limit size factor }
{
    heap(limit, size)?;
    if 8 < factor {
        return Err(Refusal::FactorTooLarge);
    }
    Ok(())
}

// Refusals 1 and 2, of a capacity, a limit of deadlines and a number of words.
#[tactic(auto, unfolding(crate::specs::Limits::book_limits))]
pub fn book(capacity: usize, limit: usize, size: usize) -> Result<(), Refusal>
    ensures { result ≡ book_limits capacity limit size }
{
    if 4096 < capacity || !(1..=4096).contains(&limit) {
        return Err(Refusal::LimitOutOfRange);
    }
    if size < 128 + 8 * capacity + 32 * limit {
        return Err(Refusal::TooFewWords);
    }
    Ok(())
}
