// The map's numbers in words, the first three of a layer's.
// C's interface, where numbers are words: in a slice, whose length the contracts ask for.
ghost use Rattle.std.specs.Prelude.{◌≡◌, ◌≤◌, length};
ghost use Rattle.replay_linked_hash_map.specs.Numbers.{map_in, with_map};

use linked_hash_map::LinkedHashMap;

pub fn map_in(numbers: &[u64]) -> LinkedHashMap
    requires { 3 ≤ length numbers.now }
    ensures { result ≡ map_in numbers.now }
{
    LinkedHashMap {
        capacity: numbers[0] as usize,
        len: numbers[1] as usize,
        refill_in: numbers[2] as usize,
    }
}

pub fn store_map(numbers: &mut [u64], map: LinkedHashMap)
    requires { 3 ≤ length numbers.old }
    ensures { numbers.new ≡ with_map numbers.old map }
{
    numbers[0] = map.capacity as u64;
    numbers[1] = map.len as u64;
    numbers[2] = map.refill_in as u64;
}
