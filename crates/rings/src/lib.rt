// Two rings of doubly linked nodes in words: what they are and what joining two nodes makes of them. Mathematics alone,
// with no function: the code that joins nodes is `linked_hash_map`'s.
//
// Node i is the five words from 5 i on; its links are the last two, the previous node and the next one.
#![tactic(auto)]
