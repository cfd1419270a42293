// The map as a layer: its numbers, and what each call does.
ghost use Rattle.std.specs.Prelude.{◌≡◌};
ghost use Rattle.replay.specs.Runs.{Replayed};
ghost use Rattle.replay_linked_hash_map.specs.Laws.{map_stored, map_past};
ghost use Rattle.replay_linked_hash_map.specs.Numbers.{map_in, with_map};
ghost use Rattle.replay_linked_hash_map.specs.Steps.{item_of, Ran};

use crate::{answer, numbers};
use linked_hash_map::{LinkedHashMap, Record};
use replay::{Answer, Call, Layer, Tell, replay};

struct Map;

impl Layer for Map {
    type Numbers = LinkedHashMap;

    const COUNT: usize = 3;

    ghost COUNT = { 3 };

    ghost numbers_in = { map_in };

    ghost with_numbers = { with_map };

    ghost Ran = { Ran };

    fn numbers_in(numbers: &[u64]) -> LinkedHashMap {
        numbers::map_in(numbers)
    }

    fn store_numbers(numbers: &mut [u64], map: LinkedHashMap) {
        numbers::store_map(numbers, map);
    }

    fn step(words: &mut [u64], map: &mut LinkedHashMap, call: Call) -> Answer {
        let key = call.first;
        // Operations are numbers, as callers in C write them. The table of lib.rt names each, and only here is one
        // told from another.
        match call.operation {
            0 => {
                let opening = LinkedHashMap::open(words, key as usize);
                *map = opening.unwrap_or_default();
                opening.is_ok().tell(0)
            }
            1 => map.clear(words).is_ok().tell(0),
            2 => answer::of_slot(map.touch(words, key)),
            3 => map.set_payload(words, item(call)).tell(0),
            4 => answer::of_placed(map.put(words, item(call))),
            5 => answer::of_taken(map.remove(words, key)),
            6 => answer::of_slot(map.find(words, key)),
            7 => answer::of_record(map.record(words, key as usize)),
            8 => answer::of_slot(map.first(words)),
            9 => answer::of_slot(map.last(words)),
            10 => answer::of_slot(map.next(words, key as usize)),
            11 => answer::of_slot(map.previous(words, key as usize)),
            12 => map.check(words).tell(0),
            _ => Answer::unknown(),
        }
    }

    ghost stored = { map_stored };

    ghost past = { map_past };
}

// Runs the calls on the words, and on the map's numbers. Says how many calls it ran: as many as have room for an
// answer, or none where there are fewer than three numbers. (A function of its own, since `replay_linked_hash_map_c`
// exports its name.)
pub fn linked_hash_map_replay(
    numbers: &mut [u64],
    words: &mut [u64],
    calls: &[u64],
    answers: &mut [u64],
) -> u64
    ensures { Replayed 3 map_in Ran numbers.old words.old calls.now answers.old numbers.new words.new answers.new result }
{
    replay::<Map>(numbers, words, calls, answers)
}

fn item(call: Call) -> Record
    ensures { result ≡ item_of call }
{
    Record {
        key: call.first,
        first: call.second,
        second: call.third,
    }
}
