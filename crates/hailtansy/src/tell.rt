// A call of the book, made where there is room for it, and told to the caller.
// Three functions with one frame (room, or 0; the call; 1), since each lends the call other things.
ghost use Rattle.std.specs.Prelude.{◌≡◌, true, false, List, ℕ};
ghost use Rattle.lazy_heap_model.specs.declared.counted.Counted.{Counted};
ghost use Rattle.expiring_model.specs.declared.answers.Answer.{Answer};
ghost use Rattle.expiring_model.specs.Model.{Call};
ghost use Rattle.expiring.specs.Calls.{Following};
ghost use Rattle.expiring.specs.Changes.{Changing};
ghost use Rattle.expiring.specs.Numbers.{book_in};
ghost use Rattle.hailtansy.specs.Calls.{Room, tick_of, Called, IsLook, Looked};

use expiring::{Expiring, Reply};
use expiring_model::Answer;
use lazy_heap_model::Counted;

// Whether there are the book's twelve numbers, and four words for the answer.
fn has_room(numbers: &[u64], answer: &[u64]) -> bool
    ensures yes { result ≡ true → Room numbers.now answer.now }
    ensures no { result ≡ false → Room numbers.now answer.now → ⊥ }
{
    12 <= numbers.len() && 4 <= answer.len()
}

// A call that looks, and changes neither numbers nor words.
pub fn look<F: FnOnce(Expiring) -> Reply>(numbers: &[u64], answer: &mut [u64], call: F) -> u64
    requires { F.IsAlwaysCallable call }
    ensures { (ws : List ℕ) (t : ℕ) (c : Call) → IsLook t c → ((r : Reply) → F.post call (book_in numbers.now) r → Following ws (book_in numbers.now) (tick_of t) c ws r) → Looked numbers.now ws t c answer.old answer.new result }
{
    if !has_room(numbers, answer) {
        return 0;
    }
    let reply = call(expiring::book_in(numbers));
    replay_expiring::store_answer(answer, 0, reply);
    1
}

// A call that may change the book. Its numbers are stored after it.
pub fn change_book<F: FnOnce(Expiring, &mut [u64]) -> Reply>(
    numbers: &mut [u64],
    words: &mut [u64],
    answer: &mut [u64],
    call: F,
) -> u64
    requires { F.IsAlwaysCallable call }
    ensures { (t : ℕ) (c : Call) → ((w w' : _) (r : Reply) → F.post call (book_in numbers.old) w r w' → Following w.now (book_in numbers.old) (tick_of t) c w'.now r) → Called numbers.old words.old t c answer.old numbers.new words.new answer.new result }
{
    if !has_room(numbers, answer) {
        return 0;
    }
    let reply = call(expiring::book_in(numbers), words);
    expiring::store_book(numbers, reply.book);
    replay_expiring::store_answer(answer, 0, reply);
    1
}

// A call that changes the numbers where they stand.
pub fn change<F: FnOnce(&mut [u64], &mut [u64]) -> Counted<Answer>>(
    numbers: &mut [u64],
    words: &mut [u64],
    answer: &mut [u64],
    call: F,
) -> u64
    requires { F.IsAlwaysCallable call }
    ensures { (t : ℕ) (c : Call) → ((n w n' w' : _) (s : Counted Answer) → F.post call n w s n' w' → Changing n.now w.now (tick_of t) c n'.now w'.now s) → Called numbers.old words.old t c answer.old numbers.new words.new answer.new result }
{
    if !has_room(numbers, answer) {
        return 0;
    }
    let said = call(numbers, words);
    replay_expiring::store_said(answer, 0, said);
    1
}
