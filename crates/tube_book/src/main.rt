// Document 01, "The session program": reads standard input to its end, and answers each line on standard output.
//
// The answers to a block of input are written before the next block is read, so that whoever waits for an answer
// at the other end of a pipe gets it.
//
// No heap: the blocks are fixed and lent, and of each only the first bytes count, `kept` or `size` of them.
#![tactic(auto)]

ghost use Rattle.std.specs.Prelude.{◌≡◌, ◌+◌, ◌≤◌, length, take};
ghost use Rattle.tube_book.specs.Keeping.{is_ended, Keeps};

use session::Session;
use std::io::Read;

// There are words for the largest book that a session opens, with 128 keys and 128 deadlines.
fn main(rt: HostRuntime) {
    let mut words = words();
    let mut bytes = [0u8; 65536];
    let mut out = [0u8; 65536];
    answer_all(&rt, &mut rt.reader(), &mut words, &mut bytes, &mut out);
}

// The `ensures` gives the length alone, which lending the array needs.
fn words() -> [u64; 5248]
    ensures { 5248 ≡ length result }
{
    [0; 5248]
}

// Every loop has to end, and nothing says that an input does: the blocks are counted up to a number that no run
// reaches.
fn answer_all(
    rt: &impl Print,
    input: &mut impl Read,
    words: &mut [u64],
    bytes: &mut [u8],
    out: &mut [u8],
) {
    let mut session = Session::Waiting;
    let mut kept = 0;
    for _ in 0..u64::MAX {
        match answer_block(rt, input, &mut session, words, bytes, kept, out) {
            Some(rest) => kept = rest,
            None => return,
        }
    }
}

// Reads a block behind what is kept, the start of a line whose end has not been read, and answers its lines.
// Says how many bytes are kept then, or that the run is over. At the end of the input a last line that lacks its
// newline is given it.
fn answer_block(
    rt: &impl Print,
    input: &mut impl Read,
    session: &mut Session,
    words: &mut [u64],
    bytes: &mut [u8],
    kept: usize,
    out: &mut [u8],
) -> Option<usize> {
    if bytes.len() <= kept {
        return None;
    }
    let n = read_behind(input, bytes, kept);
    if 0 < n {
        return answer_lines(rt, session, words, bytes, kept + n, out);
    }
    if 0 < kept {
        bytes[kept] = b'\n';
        answer_lines(rt, session, words, bytes, kept + 1, out);
    }
    None
}

// A read that fails counts as the end of the input.
fn read_behind(input: &mut impl Read, bytes: &mut [u8], kept: usize) -> usize
    requires { kept ≤ length bytes.old }
    ensures result_in_bounds { kept + result ≤ length bytes.old }
    ensures bytes_unchanged { take kept bytes.new ≡ take kept bytes.old }
{
    input.read(&mut bytes[kept..]).unwrap_or(0)
}

// Answers the lines of the first bytes, as many of them as there are, and keeps what is left. A write that fails
// ends the run. (A `while`, since a turn takes as many bytes as it read.)
fn answer_lines(
    rt: &impl Print,
    session: &mut Session,
    words: &mut [u64],
    bytes: &mut [u8],
    size: usize,
    out: &mut [u8],
) -> Option<usize>
    requires { size ≤ length bytes.old }
{
    let mut start = 0;
    while start < size {
        let ran = session::run(session, words, &bytes[start..size], out);
        rt.write_all(&out[..ran.written]).ok()?;
        if ran.read == 0 {
            break;
        }
        start += ran.read;
    }
    keep(*session, bytes, start, size)
}

// Moves what is left of the bytes to the start. A line of more than 200 bytes is no form, so that 201 of its bytes
// are enough.
fn keep(session: Session, bytes: &mut [u8], start: usize, size: usize) -> Option<usize>
    requires { (start ≤ size) × (size ≤ length bytes.old) }
    ensures { Keeps session bytes.old start size bytes.new result }
{
    let kept = (size - start).min(201);
    bytes.copy_within(start..start + kept, 0);
    (!is_ended(session)).then_some(kept)
}

fn is_ended(session: Session) -> bool
    ensures { result ≡ is_ended session }
{
    matches!(session, Session::Ended)
}
