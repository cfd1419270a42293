// Hash cells in words: where a key is looked for, what is found there, and what an index of records is. Mathematics
// alone, with no function: the code that probes is `linked_hash_map`'s.
//
// With room for n records the cells stand in the 3 n + 48 words after the n + 2 nodes of five words, four cells to a
// word. A cell is 0 if it was never used, i + 1 for record i, and anything else for a record that is gone.
#![tactic(auto)]

// Where the probe of a key ended. Of its three ends two lead to different places, which no `Option` says.
#[derive(Clone, Copy)]
pub enum Probe {
    // At a cell, and the record that it holds has the key.
    At(usize, usize),
    // Nowhere, and this cell may be taken for a record with the key.
    Free(usize),
    // Nowhere, and every cell holds a record.
    Full,
}
