// The lines of a block of bytes.
ghost use Rattle.std.specs.Prelude.{◌≡◌, ◌==◌, position};
ghost use Rattle.session.specs.Lines.{Runs};

use crate::step::Session;

// How many bytes the lines had that were read, with their newlines, and how many their answers.
#[derive(Clone, Copy)]
pub struct Ran {
    pub read: usize,
    pub written: usize,
}

// Reads lines that end in a newline, one after the other, and writes their answers, until there is no such line
// left or less than 160 bytes of room. (Two ends, and where a line starts
// is known from the one before it: no `for` says that.)
pub fn run(session: &mut Session, words: &mut [u64], bytes: &[u8], out: &mut [u8]) -> Ran
    ensures { Runs words.old session.old bytes.now out.old words.new session.new out.new result }
{
    let mut read = 0;
    let mut written = 0;
    while let Some(size) = newline(&bytes[read..]) {
        if out.len() - written < 160 {
            break;
        }
        let end = read + size;
        written += session.step(words, &bytes[read..end], &mut out[written..]);
        read = end + 1;
    }
    Ran { read, written }
}

// Where the first newline is.
fn newline(bytes: &[u8]) -> Option<usize>
    ensures { result ≡ position (λ x. x == 10) bytes.now }
{
    bytes.iter().position(|byte| *byte == b'\n')
}
