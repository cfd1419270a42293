// The words of an answer.
ghost use Rattle.std.specs.Prelude.{◌≡◌};
ghost use Rattle.replay.specs.Answers as answers;

// What an answer says. Its number is the answer's first word.
#[derive(Clone, Copy)]
pub enum Code {
    No = 0,
    Yes = 1,
    Nothing = 2,
    Number = 3,
    Pair = 4,
    Record = 5,
    Inserted = 6,
    Replaced = 7,
    Full = 8,
    Done = 9,
    Refused = 10,
    Unknown = 11,
    // A lifetime's status.
    Missing = 12,
    Immortal = 13,
    Expired = 14,
    Live = 15,
}

impl Code {
    pub fn number(self) -> u64
        ensures { result ≡ answers.number_of self }
    {
        self as u64
    }
}

#[derive(Clone, Copy)]
pub struct Answer {
    // No `Code`: the words are as C sees them, and a caller may hand in any.
    pub code: u64,
    pub first: u64,
    pub second: u64,
    pub third: u64,
}

// The table of answers: a line for each kind.
impl Answer {
    pub fn words(code: Code, first: u64, second: u64, third: u64) -> Answer
        ensures { result ≡ answers.words (answers.number_of code) first second third }
    {
        Answer {
            code: code.number(),
            first,
            second,
            third,
        }
    }

    pub fn nothing(discarded: u64) -> Answer
        ensures { result ≡ answers.nothing discarded }
    {
        Answer::words(Code::Nothing, 0, 0, discarded)
    }

    pub fn number(number: u64, discarded: u64) -> Answer
        ensures { result ≡ answers.number number discarded }
    {
        Answer::words(Code::Number, number, 0, discarded)
    }

    pub fn pair(first: u64, second: u64, discarded: u64) -> Answer
        ensures { result ≡ answers.pair first second discarded }
    {
        Answer::words(Code::Pair, first, second, discarded)
    }

    pub fn record(key: u64, first: u64, second: u64) -> Answer
        ensures { result ≡ answers.recorded key first second }
    {
        Answer::words(Code::Record, key, first, second)
    }

    pub fn inserted() -> Answer
        ensures { result ≡ answers.inserted }
    {
        Answer::words(Code::Inserted, 0, 0, 0)
    }

    pub fn replaced(key: u64, first: u64, second: u64) -> Answer
        ensures { result ≡ answers.replaced key first second }
    {
        Answer::words(Code::Replaced, key, first, second)
    }

    pub fn full() -> Answer
        ensures { result ≡ answers.full }
    {
        Answer::words(Code::Full, 0, 0, 0)
    }

    pub fn done(discarded: u64) -> Answer
        ensures { result ≡ answers.done discarded }
    {
        Answer::words(Code::Done, 0, 0, discarded)
    }

    pub fn refused(number: u64, discarded: u64) -> Answer
        ensures { result ≡ answers.refused number discarded }
    {
        Answer::words(Code::Refused, number, 0, discarded)
    }

    pub fn unknown() -> Answer
        ensures { result ≡ answers.unknown }
    {
        Answer::words(Code::Unknown, 0, 0, 0)
    }
}
