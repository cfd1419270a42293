// The printer: an answer's one text.
// Not by `Display`: std says what a `write!` leaves only where it succeeds, `Prints` in every case.
ghost use Rattle.std.specs.Prelude.{◌≡◌, ◌++◌};
ghost use Rattle.text.specs.Text.{decimal};
ghost use Rattle.text.specs.Writing.{Writes};
ghost use Rattle.session.specs.Answers.{Prints, head_of, shaped, tail_of};

use expiring_model::Answer;
use text::Writer;

// Entries discarded by a call, and after it entries in the heap and deadlines held.
#[derive(Clone, Copy, Default)]
pub struct Counts {
    pub discarded: u64,
    pub heap: u64,
    pub held: u64,
}

// Writes an answer at the start of what is lent, and says how long it is.
pub fn print(out: &mut [u8], answer: Answer, counts: Counts) -> usize
    ensures { Prints out.old answer counts out.new result }
{
    let mut line = Writer { out, at: 0 };
    head(&mut line, shape_of(answer));
    tail(&mut line, counts);
    line.at
}

// An answer as it is printed: its name, with the brackets before it, and the numbers behind it.
#[derive(Clone, Copy)]
enum Shape<'a> {
    Name(&'a [u8]),
    One(&'a [u8], u64),
    Two(&'a [u8], u64, u64),
}

fn shape_of(answer: Answer) -> Shape<'static>
    ensures { shaped result ≡ head_of answer }
{
    match answer {
        Answer::Nothing => Shape::Name(b"(none"),
        Answer::Value(v) => Shape::One(b"((value ", v),
        Answer::Yes => Shape::Name(b"(yes"),
        Answer::No => Shape::Name(b"(no"),
        Answer::Missing => Shape::Name(b"(missing"),
        Answer::Immortal => Shape::Name(b"(immortal"),
        Answer::Expired => Shape::Name(b"(expired"),
        Answer::Live(ttl, deadline) => Shape::Two(b"((live ", ttl.0, deadline.0),
        Answer::Count(n) => Shape::One(b"((count ", n),
        Answer::Due(key, deadline) => Shape::Two(b"((due ", key, deadline.0),
        Answer::Item(key, value) => Shape::Two(b"((item ", key, value),
        Answer::Rank(n) => Shape::One(b"((rank ", n),
        Answer::Done => Shape::Name(b"(done"),
        Answer::Refused(why) => Shape::One(b"((refused ", why.number()),
    }
}

// The opening bracket and the answer itself.
fn head(line: &mut Writer, shape: Shape)
    ensures { Writes line.old (shaped shape.entry) line.new }
{
    match shape {
        Shape::Name(name) => line.put(name),
        Shape::One(name, number) => {
            field(line, name, number);
            line.put(b")");
        }
        Shape::Two(name, first, second) => {
            field(line, name, first);
            field(line, b" ", second);
            line.put(b")");
        }
    }
}

// The counts, the closing bracket and the newline.
fn tail(line: &mut Writer, counts: Counts)
    ensures { Writes line.old (tail_of counts) line.new }
{
    field(line, b" (thrown ", counts.discarded);
    field(line, b") (heap ", counts.heap);
    field(line, b") (held ", counts.held);
    line.put(b"))\n");
}

// A text, and a number behind it.
#[tactic(auto, using(text::proofs::Laws::writes_then))]
fn field(line: &mut Writer, name: &[u8], number: u64)
    ensures { Writes line.old (name.now ++ decimal number) line.new }
{
    line.put(name);
    line.put_number(number);
}
