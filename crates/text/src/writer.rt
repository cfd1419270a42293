// Writing by a format.
// Not by `Display`: std says what a `write!` leaves only where it succeeds, `Writes` in every case.
ghost use Rattle.std.specs.Prelude.{◌≡◌, ◌+◌, ◌≤◌, length};
ghost use Rattle.text.specs.Text.{decimal};
ghost use Rattle.text.specs.Writing.{Spells, Writes};

// How many digits a number has.
#[tactic(auto, using(crate::proofs::Decimals::size_is, crate::proofs::Decimals::one_digit))]
fn places(n: u64) -> usize
    ensures { result ≡ length (decimal n) }
{
    match n.checked_ilog10() {
        Some(log) => log as usize + 1,
        None => 1,
    }
}

// Fills a slice with the last digits of a number.
// By index: after `iter_mut().rev()` nothing is known of the elements.
fn spell(out: &mut [u8], n: u64)
    ensures { Spells out.old n out.new }
{
    let mut rest = n;
    for i in (0..out.len()).rev() {
        out[i] = b'0' + (rest % 10) as u8;
        rest /= 10;
    }
}

// What is lent for a text, and up to where it is written.
#[derive(Drop)]
pub struct Writer<'a> {
    pub out: &'a mut [u8],
    pub at: usize,
}

impl<'a> Writer<'a> {
    // Writes a text. Where there is no room for it, it writes nothing and is at the end of what is lent. (Compiled in
    // place: a caller's text is copied by a length that is known there.)
    #[tactic(auto, using(crate::proofs::Stores::puts_text))]
    #[inline(always)]
    pub fn put(&mut self, text: &[u8])
        ensures { Writes self.old text.now self.new }
    {
        if self.out.len() < self.at || self.out.len() - self.at < text.len() {
            self.at = self.out.len();
            return;
        }
        let end = self.at + text.len();
        self.out[self.at..end].copy_from_slice(text);
        self.at = end;
    }

    // Writes a number likewise. Most have one digit.
    #[tactic(auto, using(crate::proofs::Stores::puts_digit, crate::proofs::Stores::puts_number, crate::proofs::Stores::no_room))]
    pub fn put_number(&mut self, n: u64)
        ensures { Writes self.old (decimal n) self.new }
    {
        if n < 10 && self.at < self.out.len() {
            self.out[self.at] = b'0' + n as u8;
            self.at += 1;
            return;
        }
        let count = places(n);
        if self.out.len() < self.at || self.out.len() - self.at < count {
            self.at = self.out.len();
            return;
        }
        let end = self.at + count;
        spell(&mut self.out[self.at..end], n);
        self.at = end;
    }
}
