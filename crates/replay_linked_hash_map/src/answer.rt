// The answers of the map's calls, in words. None discards anything, and none has a refusal's number.
// (Functions: an impl of `Tell` would have to stand beside the trait or the type, and `replay` would then stand
// on every layer.)
ghost use Rattle.std.specs.Prelude.{◌≡◌};
ghost use Rattle.replay_linked_hash_map.specs.Answers.{of_slot, of_record, of_placed, of_taken};

use linked_hash_map::{PutError, Record, Unfit};
use replay::{Answer, Tell};

pub fn of_slot(slot: Result<Option<usize>, Unfit>) -> Answer
    ensures { result ≡ of_slot slot }
{
    match slot {
        Ok(found) => found.tell(0),
        Err(Unfit) => Answer::refused(0, 0),
    }
}

pub fn of_record(item: Record) -> Answer
    ensures { result ≡ of_record item }
{
    Answer::record(item.key, item.first, item.second)
}

pub fn of_placed(placed: Result<Option<Record>, PutError>) -> Answer
    ensures { result ≡ of_placed placed }
{
    match placed {
        Ok(None) => Answer::inserted(),
        Ok(Some(old)) => Answer::replaced(old.key, old.first, old.second),
        Err(PutError::Full) => Answer::full(),
        Err(PutError::Unfit) => Answer::refused(0, 0),
    }
}

pub fn of_taken(taken: Result<Option<Record>, Unfit>) -> Answer
    ensures { result ≡ of_taken taken }
{
    match taken {
        Ok(Some(old)) => of_record(old),
        Ok(None) => Answer::nothing(0),
        Err(Unfit) => Answer::refused(0, 0),
    }
}
