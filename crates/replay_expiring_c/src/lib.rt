// The book's openings, checks and lists of calls for programs in C and Rust: the functions of `replay_expiring`,
// exported. Each exported name is a function of its own.
#![tactic(auto)]

ghost use Rattle.replay_expiring.specs.Runs.{Opens, Checked, Replayed};

// Opens a book in the words, and writes its numbers and an answer. Says 1, or 0 where it did nothing: where
// there are fewer than twelve numbers, six words of an opening or four words for the answer.
#[unsafe(no_mangle)]
pub extern "C" fn expiring_open(
    numbers: &mut [u64],
    words: &mut [u64],
    opening: &[u64],
    answer: &mut [u64],
) -> u64
    ensures { Opens numbers.old words.old opening.now answer.old numbers.new words.new answer.new result }
{
    replay_expiring::expiring_open(numbers, words, opening, answer)
}

// 1 where words and numbers form a book, otherwise 0.
#[unsafe(no_mangle)]
pub extern "C" fn expiring_check(numbers: &[u64], words: &[u64]) -> u64
    ensures { Checked numbers.now words.now result }
{
    replay_expiring::expiring_check(numbers, words)
}

// Runs the calls on the words, and on the book's numbers. Says how many calls it ran: as many as have room for an
// answer and come before the first that is none, or 0 where there are fewer than twelve numbers.
#[unsafe(no_mangle)]
pub extern "C" fn expiring_replay(
    numbers: &mut [u64],
    words: &mut [u64],
    calls: &[u64],
    answers: &mut [u64],
) -> u64
    ensures { Replayed numbers.old words.old calls.now answers.old numbers.new words.new answers.new result }
{
    replay_expiring::expiring_replay(numbers, words, calls, answers)
}
