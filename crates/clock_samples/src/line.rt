// A line as far as it has been read. Text beside its length: nothing here takes memory from the heap.
ghost use Rattle.std.specs.Prelude.{◌≤◌};
ghost use Rattle.clock_samples.specs.declared.line.TheConstants.{KEPT};

// The longest line that is a question. Of a longer one a byte more is kept, by which it is known.
const LONGEST: usize = 128;

const KEPT: usize = LONGEST + 1;

#[derive(Clone, Copy)]
pub struct Line {
    text: [u8; KEPT],
    length: usize,
    ghost fits: { length ≤ KEPT },
}

impl Line {
    pub(crate) fn new() -> Line {
        Line {
            text: [0; KEPT],
            length: 0,
        }
    }

    pub(crate) fn push(&mut self, byte: u8) {
        if self.length < KEPT {
            self.text[self.length] = byte;
            self.length += 1;
        }
    }

    // As much as is written back.
    pub(crate) fn shown(&self) -> &[u8] {
        &self.text[..self.length.min(LONGEST)]
    }

    // All of it, if it is no longer than a question may be.
    pub(crate) fn whole(&self) -> Option<&[u8]> {
        if LONGEST < self.length {
            return None;
        }
        Some(&self.text[..self.length])
    }
}
