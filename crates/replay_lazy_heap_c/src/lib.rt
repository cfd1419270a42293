// The heap's list of calls for programs in C and Rust: the function of `replay_lazy_heap`, exported. Each
// exported name is a function of its own.
#![tactic(auto)]

ghost use Rattle.replay.specs.Runs.{Replayed};
ghost use Rattle.replay_lazy_heap.specs.Numbers.{heap_in};
ghost use Rattle.replay_lazy_heap.specs.Steps.{Ran};

// Runs the calls on the words, and on the heap's numbers. Says how many calls it ran: as many as have room for an
// answer, or none where there are fewer than six numbers.
#[unsafe(no_mangle)]
pub extern "C" fn lazy_heap_replay(
    numbers: &mut [u64],
    words: &mut [u64],
    calls: &[u64],
    answers: &mut [u64],
) -> u64
    ensures { Replayed 6 heap_in Ran numbers.old words.old calls.now answers.old numbers.new words.new answers.new result }
{
    replay_lazy_heap::lazy_heap_replay(numbers, words, calls, answers)
}
