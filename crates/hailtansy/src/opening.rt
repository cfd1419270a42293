// A book's opening, the check, and a list of calls.
ghost use Rattle.std.specs.Prelude.{[], ◌∷◌};
ghost use Rattle.replay_expiring.specs.Runs.{Opens, Checked, Replayed};

// Opens a book in the words with room for `capacity` values and `limit` deadlines, its first sequence number, and,
// where `given` is not 0, a default lifetime. It is a number and no flag: C may hand in any.
#[unsafe(no_mangle)]
pub extern "C" fn hailtansy_open(
    numbers: &mut [u64],
    words: &mut [u64],
    capacity: u64,
    limit: u64,
    seq: u64,
    given: u64,
    secs: u64,
    nanos: u64,
    answer: &mut [u64],
) -> u64
    ensures { Opens numbers.old words.old (capacity ∷ limit ∷ seq ∷ given ∷ secs ∷ nanos ∷ []) answer.old numbers.new words.new answer.new result }
{
    let opening = [capacity, limit, seq, given, secs, nanos];
    replay_expiring::expiring_open(numbers, words, &opening, answer)
}

// 1 where words and numbers form a book, otherwise 0.
#[unsafe(no_mangle)]
pub extern "C" fn hailtansy_check(numbers: &[u64], words: &[u64]) -> u64
    ensures { Checked numbers.now words.now result }
{
    replay_expiring::expiring_check(numbers, words)
}

// Runs a list of calls, and says how many.
#[unsafe(no_mangle)]
pub extern "C" fn hailtansy_replay(
    numbers: &mut [u64],
    words: &mut [u64],
    calls: &[u64],
    answers: &mut [u64],
) -> u64
    ensures { Replayed numbers.old words.old calls.now answers.old numbers.new words.new answers.new result }
{
    replay_expiring::expiring_replay(numbers, words, calls, answers)
}
