// A call's answer, and how many entries of the heap the call discarded.
#[derive(Clone, Copy)]
pub struct Counted<T> {
    pub answer: T,
    pub discarded: usize,
}
