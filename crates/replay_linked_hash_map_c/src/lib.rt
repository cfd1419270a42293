// The map's list of calls for programs in C and Rust: the function of `replay_linked_hash_map`, exported. Each
// exported name is a function of its own.
#![tactic(auto)]

ghost use Rattle.replay.specs.Runs.{Replayed};
ghost use Rattle.replay_linked_hash_map.specs.Numbers.{map_in};
ghost use Rattle.replay_linked_hash_map.specs.Steps.{Ran};

// Runs the calls on the words, and on the map's numbers. Says how many calls it ran: as many as have room for an
// answer, or none where there are fewer than three numbers.
#[unsafe(no_mangle)]
pub extern "C" fn linked_hash_map_replay(
    numbers: &mut [u64],
    words: &mut [u64],
    calls: &[u64],
    answers: &mut [u64],
) -> u64
    ensures { Replayed 3 map_in Ran numbers.old words.old calls.now answers.old numbers.new words.new answers.new result }
{
    replay_linked_hash_map::linked_hash_map_replay(numbers, words, calls, answers)
}
