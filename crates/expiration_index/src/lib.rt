// The deadlines of keys: `ExpirationIndex` of docs/src/ds/expiration_index.rs, in words that the caller lends.
//
// It is a lazy heap whose scores are deadlines, so that the next one due is the heap's best. Of equal deadlines
// the one set earlier comes first. The heap's factor is the index's own constant: once there are more than two
// entries for each key held, those of replaced and removed deadlines are discarded.
//
// `set_deadline` and `pop_expired` take logarithmic time (and more once in a while, for the entries that they
// discard), and so does `next_deadline` for each entry that it discards. `expired_count` walks the keys held, or
// the entries where there are as many, and nothing where no entry's deadline has come; `check` walks the keys and
// the entries; opening goes with the limit, and `clear` with the keys held, or with the cells that it wipes, and
// so with the limit, where they are more than a thirty-second of it. The rest is constant.
//
// An index for d keys, 1 to 4,096, takes 64 + 32 d words, and leaves those beyond alone. Any words and any
// numbers may be handed to any call. A refusal changes nothing; on words and numbers that are no index, only
// they may change.
#![tactic(auto)]

mod index;

pub use index::ExpirationIndex;
