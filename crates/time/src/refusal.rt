// Why a call was turned back. Each refusal has a number that callers in other languages and sessions see.
ghost use Rattle.std.specs.Prelude.{◌≡◌};
ghost use Rattle.time.specs.Refusal.{number_of};

#[derive(Clone, Copy, PartialEq, Eq)]
pub enum Refusal {
    // A capacity above 4,096, a key limit outside 1..4,096, or numbers that no accepted opening makes.
    LimitOutOfRange = 1,
    TooFewWords = 2,
    // A duration with 1,000,000,000 nanoseconds or more.
    InvalidNanos = 3,
    // A new key where as many are held as the limit allows.
    KeyLimitReached = 4,
    // A rebuild factor above 8.
    FactorTooLarge = 5,
    // A session line that is no form.
    MalformedLine = 6,
}

impl Refusal {
    // Under a name, for calls in other languages; a `From` would stand away from the numbers.
    pub fn number(self) -> u64
        ensures { result ≡ number_of self }
    {
        self as u64
    }
}
