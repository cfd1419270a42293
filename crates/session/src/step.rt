// One line of a session. That there is room is a contract's fact: the caller lends the rest of its own buffer.
ghost use Rattle.std.specs.Prelude.{◌≡◌, ◌≤◌, length};
ghost use Rattle.session.specs.Session.{waiting, step, room, Steps, Begins, Opens, Continues, Replies, Tells};

use crate::answer::Counts;
use crate::{answer, ask};
use expiring::{Expiring, Reply};
use expiring_model::Answer;
use forms::Form;
use time::{Refusal, Tick};

// A session before its first line, with its book, or after a refused first line.
#[derive(Clone, Copy)]
pub enum Session {
    Waiting,
    Open(Expiring),
    Ended,
}

impl Session {
    // Reads a line, without its newline, and writes its answer, which has at most 160 bytes, at the start of
    // what is lent; says how many bytes it has. Where less is lent nothing is done.
    pub fn step(&mut self, words: &mut [u64], line: &[u8], out: &mut [u8]) -> usize
        ensures { Steps words.old self.old line.now out.old words.new self.new out.new result }
    {
        if out.len() < 160 {
            return 0;
        }
        let form = forms::parse(line);
        match *self {
            Session::Waiting => self.first(words, form, out),
            Session::Open(book) => self.next(book, words, form, out),
            Session::Ended => 0,
        }
    }

    // The first line. One that opens no book is told why, and ends the session.
    fn first(&mut self, words: &mut [u64], form: Option<Form>, out: &mut [u8]) -> usize
        requires { room ≤ length out.old }
        ensures { Begins words.old out.old (step (length words.old) waiting form) words.new self.new out.new result }
    {
        match open_by(words, form) {
            Ok(book) => {
                *self = Session::Open(book);
                0
            }
            Err(why) => {
                *self = Session::Ended;
                answer::print(out, Answer::Refused(why), Counts::default())
            }
        }
    }

    // A later line.
    fn next(
        &mut self,
        book: Expiring,
        words: &mut [u64],
        form: Option<Form>,
        out: &mut [u8],
    ) -> usize
        requires { room ≤ length out.old }
        ensures { Continues words.old book form out.old words.new self.new out.new result }
    {
        let reply = reply_to(book, words, form);
        *self = Session::Open(reply.book);
        tell(reply, words, out)
    }
}

// The book that a first line opens.
fn open_by(words: &mut [u64], form: Option<Form>) -> Result<Expiring, Refusal>
    ensures { Opens words.old (step (length words.old) waiting form) words.new result }
{
    let Some(
        Form::Book {
            capacity,
            limit,
            seq,
            default_ttl,
        },
    ) = form
    else {
        return Err(Refusal::MalformedLine);
    };
    if 128 < capacity || 128 < limit {
        return Err(Refusal::LimitOutOfRange);
    }
    let default_ttl = default_ttl.map(ask::duration);
    Expiring::open(words, capacity as usize, limit as usize, seq, default_ttl)
}

// What a book answers to a later line: to a call what the call does, to any other line refusal 6.
fn reply_to(book: Expiring, words: &mut [u64], form: Option<Form>) -> Reply
    ensures { Replies words.old book form words.new result }
{
    match form {
        Some(Form::At(tick, call)) => ask::ask(book, words, Tick(tick), call),
        _ => Reply {
            book,
            answer: Answer::Refused(Refusal::MalformedLine),
            discarded: 0,
        },
    }
}

// Writes a book's answer, with the counts as they stand.
fn tell(reply: Reply, words: &[u64], out: &mut [u8]) -> usize
    requires { room ≤ length out.old }
    ensures { Tells words.now reply out.old out.new result }
{
    let counts = Counts {
        discarded: reply.discarded as u64,
        heap: reply.book.heap_len(words).unwrap_or(0) as u64,
        held: reply.book.deadlines_held(words).unwrap_or(0) as u64,
    };
    answer::print(out, reply.answer, counts)
}
