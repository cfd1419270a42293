// A book's opening, and the check. C's interface: answers are 0 or 1, and a word says whether there is a lifetime.
ghost use Rattle.std.specs.Prelude.{◌≡◌};
ghost use Rattle.replay_expiring.specs.Runs.{Opens, Checked};

use expiring::Expiring;
use time::Duration;

// Opens a book in the words, and writes its numbers and an answer. Says 1, or 0 where it did nothing: where
// there are fewer than twelve numbers, six words of an opening or four words for the answer.
pub fn expiring_open(
    numbers: &mut [u64],
    words: &mut [u64],
    opening: &[u64],
    answer: &mut [u64],
) -> u64
    ensures { Opens numbers.old words.old opening.now answer.old numbers.new words.new answer.new result }
{
    if numbers.len() < 12 || opening.len() < 6 || answer.len() < 4 {
        return 0;
    }
    let default_ttl = (opening[3] != 0).then_some(Duration::of(opening[4], opening[5]));
    let opened = Expiring::open(
        words,
        opening[0] as usize,
        opening[1] as usize,
        opening[2],
        default_ttl,
    );
    expiring::store_book(numbers, opened.unwrap_or_default());
    replay::store_answer(answer, 0, replay::opened(opened));
    1
}

// 1 where words and numbers form a book, otherwise 0.
pub fn expiring_check(numbers: &[u64], words: &[u64]) -> u64
    ensures { Checked numbers.now words.now result }
{
    if numbers.len() < 12 {
        return 0;
    }
    expiring::book_in(numbers).check(words) as u64
}
