// A turn of the program: the bytes of a piece of input up to the first newline are taken, and the line that ends there is answered. The sizes of what is lent
// stand in contracts: a lent slice has no type for its least or its greatest length.
ghost use Rattle.std.specs.Prelude.{◌≡◌, ◌≤◌, length};
ghost use Rattle.index_spec.specs.Layout.{layout};
ghost use Rattle.line.specs.Run.{held_line};
ghost use Rattle.line.specs.Code.{line_in, parsed_size, held_size, held_in};
ghost use Rattle.listings.specs.Answered.{Answered};
ghost use Rattle.listings.specs.Listing.{output_room};
ghost use Rattle.command.specs.Turned.{Turned, Finished};

use crate::answer::{answer_delete, answer_get, answer_insert};
use index::pages::Mode;
use line::pieces::{Held, Taken, parse_held, take_line};
use line::reading::{KEY_ROOM, LineError, Parsed};
use line::writing::{Answer, put_answer};
use listings::listing::answer_list;

// The answer to a line that was read. Its key stands in the buffer.
fn answer_parsed(
    store: &mut [u8],
    parsed: Result<Parsed, LineError>,
    key: &[u8],
    out: &mut [u8],
) -> usize
    requires { (length store.old ≤ 65536) × (parsed_size parsed ≤ 64) × (64 ≤ length key.now) × (length out.old ≡ output_room) }
    ensures { Answered layout (line_in parsed key.now) store.old store.new out.old out.new result }
{
    match parsed {
        Ok(Parsed::Insert(n, v)) => answer_insert(store, &key[..n], v, out),
        Ok(Parsed::Get(n)) => answer_get(store, &key[..n], out),
        Ok(Parsed::Delete(n)) => answer_delete(store, &key[..n], out),
        Ok(Parsed::Plain(n)) => answer_list(store, &key[..n], Mode::Plain, out),
        Ok(Parsed::Inclusive(n)) => answer_list(store, &key[..n], Mode::Inclusive, out),
        Err(LineError::Bad) => put_answer(Answer::Bad, out),
        Err(LineError::Key) => put_answer(Answer::Key, out),
    }
}

// The answer to the line that is held.
fn answer_held(store: &mut [u8], held: Held, line: &[u8], out: &mut [u8]) -> usize
    requires { (length store.old ≤ 65536) × (held_size held ≤ 200) × (200 ≤ length line.now) × (length out.old ≡ output_room) }
    ensures { Answered layout (held_line (held_in held line.now)) store.old store.new out.old out.new result }
{
    let mut key = [0u8; KEY_ROOM];
    let parsed = parse_held(held, line, &mut key);
    answer_parsed(store, parsed, &key, out)
}

// The bytes of the piece that are taken, what is held after them, and the bytes that are answered.
#[derive(Clone, Copy, Debug, PartialEq, Eq)]
pub struct Turn {
    pub used: usize,
    pub held: Held,
    pub bytes: usize,
}

// The store has 65,536 bytes at most, the line's buffer 200 at least, and the output is as long as the longest answer. They are lent side by side and not in
// a struct: Turned names each before and after the turn. The line's buffer stands beside what is held, since there is no heap.
pub fn take_turn(
    store: &mut [u8],
    piece: &[u8],
    held: Held,
    line: &mut [u8],
    out: &mut [u8],
) -> Turn
    requires { (length store.old ≤ 65536) × (held_size held ≤ 200) × (200 ≤ length line.old) × (length out.old ≡ output_room) }
    ensures { Turned (held_in held line.old) piece.now line.new store.old store.new out.old out.new result }
{
    match take_line(piece, held, line) {
        Taken::More(h) => Turn {
            used: piece.len(),
            held: h,
            bytes: 0,
        },
        Taken::Ended(h, used) => {
            let bytes = answer_held(store, h, line, out);
            Turn {
                used,
                held: Some(0),
                bytes,
            }
        }
    }
}

// The end of the input: a last line without newline is answered, and nothing after the last newline is no line.
pub fn end_input(store: &mut [u8], held: Held, line: &[u8], out: &mut [u8]) -> usize
    requires { (length store.old ≤ 65536) × (held_size held ≤ 200) × (200 ≤ length line.now) × (length out.old ≡ output_room) }
    ensures { Finished (held_in held line.now) store.old out.old out.new result }
{
    match held {
        Some(0) => 0,
        _ => answer_held(store, held, line, out),
    }
}
