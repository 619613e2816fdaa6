// Insertion, lookup and deletion carried out on a store, and the answer's line written. A `From` for an answer would have to stand in the crate of the answers
// or in that of the errors, and neither knows the other. Output goes at the start of a lent slice, and its length comes back, as in `line`; that it has room for
// any answer of one line stands in contracts, since a lent slice has no type for its least length.
ghost use Rattle.std.specs.Prelude.{◌≡◌, ◌≤◌, length};
ghost use Rattle.index_spec.specs.Layout.{layout};
ghost use Rattle.line.specs.Line;
ghost use Rattle.listings.specs.Answered.{insert_told, refused_told, get_told, remove_told, Answered};

use index::get::LookupError;
use index::insert::{InsertError, Inserted};
use line::writing::{Answer, put_answer};

fn told_insert(r: Result<Inserted, InsertError>) -> Answer
    ensures { result ≡ insert_told r }
{
    match r {
        Ok(Inserted::New) => Answer::New,
        Ok(Inserted::Replaced) => Answer::Replaced,
        Err(InsertError::Store | InsertError::Key) => Answer::Key,
        Err(InsertError::Height) => Answer::Height,
        Err(InsertError::Full) => Answer::Full,
    }
}

// What a call for a stored key that is refused is told as.
fn told_refused(e: LookupError) -> Answer
    ensures { result ≡ refused_told e }
{
    match e {
        LookupError::Store | LookupError::Key => Answer::Key,
        LookupError::Absent => Answer::Absent,
    }
}

fn told_get(r: Result<u32, LookupError>) -> Answer
    ensures { result ≡ get_told r }
{
    match r {
        Ok(v) => Answer::Value(v),
        Err(e) => told_refused(e),
    }
}

fn told_remove(r: Result<(), LookupError>) -> Answer
    ensures { result ≡ remove_told r }
{
    match r {
        Ok(()) => Answer::Removed,
        Err(e) => told_refused(e),
    }
}

pub fn answer_insert(store: &mut [u8], key: &[u8], value: u32, out: &mut [u8]) -> usize
    requires { 11 ≤ length out.old }
    ensures { Answered layout (Line.command (Line.insert key.now value)) store.old store.new out.old out.new result }
{
    put_answer(told_insert(index::insert::insert(store, key, value)), out)
}

pub fn answer_get(store: &[u8], key: &[u8], out: &mut [u8]) -> usize
    requires { 11 ≤ length out.old }
    ensures { Answered layout (Line.command (Line.get key.now)) store.now store.now out.old out.new result }
{
    put_answer(told_get(index::get::get(store, key)), out)
}

pub fn answer_delete(store: &mut [u8], key: &[u8], out: &mut [u8]) -> usize
    requires { 11 ≤ length out.old }
    ensures { Answered layout (Line.command (Line.delete key.now)) store.old store.new out.old out.new result }
{
    put_answer(told_remove(index::remove::remove(store, key)), out)
}
