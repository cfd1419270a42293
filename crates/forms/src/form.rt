// The forms, and the parser: a line is read as the form whose text it is. What reads a text that is given is compiled
// in place, so that it is compared by a length that is known there.
ghost use Rattle.std.specs.Prelude.{◌≡◌};
ghost use Rattle.forms.specs.Forms.{Reads};
ghost use Rattle.forms.specs.Reading.{ReadsTick, ReadsOnly, ReadsName, ReadsLifetime, book_in, call_in, put_in, peek_in, ttl_in};

// A lifetime as it is written.
#[derive(Clone, Copy)]
pub struct Lifetime {
    pub secs: u64,
    pub nanos: u64,
}

// What is asked of a book, with its numbers.
#[derive(Clone, Copy)]
pub enum Call {
    Put(u64, u64),
    PutWithTtl(u64, u64, Lifetime),
    Get(u64),
    Peek(u64),
    Has(u64),
    Drop(u64),
    Ttl(u64, Lifetime),
    Status(u64),
    Purge,
    Due,
    Live,
    Clear,
}

// What a line says: the first opens a book, each later one makes a call.
#[derive(Clone, Copy)]
pub enum Form {
    // The limit is that of deadlines; seq is the first sequence number.
    Book {
        capacity: u64,
        limit: u64,
        seq: u64,
        default_ttl: Option<Lifetime>,
    },
    // The tick, and the call.
    At(u64, Call),
}

// Reads a line of any length.
#[tactic(auto, using(crate::proofs::Wholes::long_line, crate::proofs::Spellings::parsed))]
pub fn parse(line: &[u8]) -> Option<Form>
    ensures { Reads line.now result }
{
    if 200 < line.len() {
        return None;
    }
    match tick(line) {
        Some((tick, rest)) => Some(Form::At(tick, call_from(rest)?)),
        None => book(line),
    }
}

// The tick of a call, and the call from its name on.
#[tactic(auto, using(crate::proofs::Wholes::no_tick, crate::proofs::Wholes::no_open, crate::proofs::Wholes::opened, text::proofs::Laws::starts_none, text::proofs::Laws::starts_some))]
fn tick(line: &[u8]) -> Option<(u64, &[u8])>
    ensures { ReadsTick line.now result }
{
    let (tick, rest) = text::number_after(line, b"(at ")?;
    Some((tick, rest.strip_prefix(b" (")?))
}

#[tactic(auto, using(crate::proofs::Pieces::no_capacity, crate::proofs::Pieces::no_limit, crate::proofs::Pieces::no_seq, crate::proofs::Pieces::book_ended, crate::proofs::Pieces::book_other, crate::proofs::Pieces::book_timed, text::proofs::Laws::ends_is))]
fn book(line: &[u8]) -> Option<Form>
    ensures { result ≡ book_in line.now }
{
    let (capacity, rest) = text::number_after(line, b"(book ")?;
    let (limit, rest) = text::number_after(rest, b" ")?;
    let (seq, rest) = text::number_after(rest, b" ")?;
    let default_ttl = if rest == b")".as_slice() {
        None
    } else {
        Some(two_numbers(rest, b" (ttl ", b"))")?)
    };
    Some(Form::Book {
        capacity,
        limit,
        seq,
        default_ttl,
    })
}

// A call, from its name on, with the two brackets behind it. Its first letter tells which it can be: letters come
// from outside, and the table of them has to stand somewhere.
#[tactic(auto, unfolding(crate::specs::Reading::call_in, crate::specs::Reading::by_letter), using(crate::proofs::Wholes::one_is))]
fn call_from(line: &[u8]) -> Option<Call>
    ensures { result ≡ call_in line.now }
{
    match line {
        [b'p', ..] => put(line).or_else(|| peek_or_purge(line)),
        [b'g', ..] => only_number(line, b"get ").map(Call::Get),
        [b's', ..] => only_number(line, b"status ").map(Call::Status),
        [b't', ..] => ttl(line),
        [b'd', ..] => only_number(line, b"drop ")
            .map(Call::Drop)
            .or_else(|| only_name(line, b"due))", Call::Due)),
        [b'h', ..] => only_number(line, b"has ").map(Call::Has),
        [b'l', ..] => only_name(line, b"live))", Call::Live),
        [b'c', ..] => only_name(line, b"clear))", Call::Clear),
        _ => None,
    }
}

#[tactic(auto, using(crate::proofs::Pieces::put_no_key, crate::proofs::Pieces::put_no_value, crate::proofs::Pieces::put_ended, crate::proofs::Pieces::put_other, crate::proofs::Pieces::put_timed, text::proofs::Laws::ends_is))]
fn put(line: &[u8]) -> Option<Call>
    ensures { result ≡ put_in line.now }
{
    let (key, rest) = text::number_after(line, b"put ")?;
    let (value, rest) = text::number_after(rest, b" ")?;
    if rest == b"))".as_slice() {
        return Some(Call::Put(key, value));
    }
    let ttl = two_numbers(rest, b" (ttl ", b")))")?;
    Some(Call::PutWithTtl(key, value, ttl))
}

#[tactic(auto, unfolding(crate::specs::Reading::peek_in), using(crate::proofs::Wholes::one_is))]
fn peek_or_purge(line: &[u8]) -> Option<Call>
    ensures { result ≡ peek_in line.now }
{
    only_number(line, b"peek ")
        .map(Call::Peek)
        .or_else(|| only_name(line, b"purge))", Call::Purge))
}

#[tactic(auto, using(crate::proofs::Pieces::ttl_no_key, crate::proofs::Pieces::ttl_no_ttl, crate::proofs::Pieces::ttl_read))]
fn ttl(line: &[u8]) -> Option<Call>
    ensures { result ≡ ttl_in line.now }
{
    let (key, rest) = text::number_after(line, b"ttl ")?;
    let ttl = two_numbers(rest, b" ", b"))")?;
    Some(Call::Ttl(key, ttl))
}

// The number of a call that has one, from the call's name on.
#[tactic(auto, using(crate::proofs::Wholes::only_is))]
#[inline(always)]
fn only_number(line: &[u8], name: &[u8]) -> Option<u64>
    ensures { ReadsOnly line.now name.now result }
{
    text::number_between(line, name, b"))")
}

// A call that has no number, from its name on.
#[tactic(auto, using(crate::proofs::Wholes::named_is, text::proofs::Laws::ends_is))]
#[inline(always)]
fn only_name(line: &[u8], name: &[u8], call: Call) -> Option<Call>
    ensures { ReadsName line.now name.now call result }
{
    (line == name).then_some(call)
}

// The two numbers of a lifetime that ends a line, with a text before them and one behind them.
#[tactic(auto, using(crate::proofs::Wholes::no_secs, crate::proofs::Wholes::no_nanos, crate::proofs::Wholes::both_read))]
#[inline(always)]
fn two_numbers(line: &[u8], before: &[u8], behind: &[u8]) -> Option<Lifetime>
    ensures { ReadsLifetime line.now before.now behind.now result }
{
    let (secs, rest) = text::number_after(line, before)?;
    let nanos = text::number_between(rest, b" ", behind)?;
    Some(Lifetime { secs, nanos })
}
