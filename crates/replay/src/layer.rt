// A list of calls of any layer.
ghost use Rattle.std.specs.Prelude.{◌≡◌, ℕ, ◌*◌, ◌≤◌, List, length, get_or};
ghost use Rattle.replay.specs.Runs.{Step, Run, Replayed};

use crate::answer::Answer;
use crate::call::{Call, call_at, room, store_answer};

// A layer, whose calls change its numbers and the words that a caller lends.
pub trait Layer {
    type Numbers: Drop;

    // How many words the numbers take.
    const COUNT: usize;

    ghost COUNT: { ℕ };

    ghost numbers_in: { List ℕ → Self.Numbers };

    ghost with_numbers: { List ℕ → Self.Numbers → List ℕ };

    // What a call does.
    ghost Ran: { Step Self.Numbers };

    fn numbers_in(numbers: &[u64]) -> Self::Numbers
        requires { COUNT ≤ length numbers.now }
        ensures { result ≡ numbers_in numbers.now };

    fn store_numbers(numbers: &mut [u64], layer: Self::Numbers)
        requires { COUNT ≤ length numbers.old }
        ensures { numbers.new ≡ with_numbers numbers.old layer };

    fn step(words: &mut [u64], layer: &mut Self::Numbers, call: Call) -> Answer
        ensures { Ran words.old layer.old call words.new layer.new result };

    // The calls, one after the other.
    fn run(
        words: &mut [u64],
        layer: &mut Self::Numbers,
        calls: &[u64],
        answers: &mut [u64],
        count: usize,
    )
        requires { (4 * count ≤ length calls.now) × (4 * count ≤ length answers.old) }
        ensures { Run Ran calls.now words.old layer.old answers.old count words.new layer.new answers.new }
    {
        for i in 0..count {
            let answer = Self::step(words, layer, call_at(calls, i));
            store_answer(answers, i, answer);
        }
    }

    ghost stored: { (ns : List ℕ) (s : Self.Numbers) → COUNT ≤ length ns → numbers_in (with_numbers ns s) ≡ s };

    ghost past: { (ns : List ℕ) (s : Self.Numbers) (j : ℕ) → COUNT ≤ j → get_or (with_numbers ns s) j 0 ≡ get_or ns j 0 };
}

// Runs the calls on the words, and on the layer's numbers. Says how many calls it ran: as many as have room for an
// answer, or none where there are fewer numbers than the layer has.
pub fn replay<L: Layer>(
    numbers: &mut [u64],
    words: &mut [u64],
    calls: &[u64],
    answers: &mut [u64],
) -> u64
    ensures { Replayed L.COUNT L.numbers_in L.Ran numbers.old words.old calls.now answers.old numbers.new words.new answers.new result }
{
    if numbers.len() < L::COUNT {
        return 0;
    }
    let count = room::<4>(calls, answers);
    let mut layer = L::numbers_in(numbers);
    L::run(words, &mut layer, calls, answers, count);
    L::store_numbers(numbers, layer);
    count as u64
}
