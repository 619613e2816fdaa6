// Input that comes in pieces of any size: what is held of the present line, until its newline is there.
ghost use Rattle.std.specs.Prelude.{◌≡◌, ◌≤◌, length};
ghost use Rattle.line.specs.Run.{grow, take_line, held_line};
ghost use Rattle.line.specs.Code.{LineIs, held_size, held_in, HeldIs, taken_in, TakenIs};

use crate::reading::{LINE_LIMIT, LineError, Parsed, parse_short};

// What is held of the present line: so many bytes at the start of a lent buffer of LINE_LIMIT bytes; none where the line is too long. The buffer stands
// beside it, since memory is fixed. Contracts say that the count is 200 at most: a struct of the count with that as a ghost field would be taken apart at
// each use of the number, and `HeldIs`, `TakenIs`, `Turned` and `Fed` speak of the number.
pub type Held = Option<usize>;

// One byte more, which is no newline.
pub fn hold(held: Held, c: u8, line: &mut [u8]) -> Held
    requires { (held_size held ≤ 200) × (200 ≤ length line.old) }
    ensures { HeldIs (grow (held_in held line.old) c) line.old line.new result }
{
    let count = held?;
    if LINE_LIMIT <= count {
        return None;
    }
    line[count] = c;
    Some(count + 1)
}

// A piece of input gave its bytes up to the first newline, so many with it; or all of them.
#[derive(Clone, Copy, Debug, PartialEq, Eq)]
pub enum Taken {
    More(Held),
    Ended(Held, usize),
}

pub fn take_line(piece: &[u8], held: Held, line: &mut [u8]) -> Taken
    requires { (held_size held ≤ 200) × (200 ≤ length line.old) }
    ensures { TakenIs (take_line (held_in held line.old) piece.now) piece.now line.old line.new result }
{
    let mut h = held;
    for (i, c) in piece.iter().enumerate() {
        if *c == b'\n' {
            return Taken::Ended(h, i + 1);
        }
        h = hold(h, *c, line);
    }
    Taken::More(h)
}

// The line that is held, once its newline is there.
pub fn parse_held(held: Held, line: &[u8], key: &mut [u8]) -> Result<Parsed, LineError>
    requires { (held_size held ≤ 200) × (200 ≤ length line.now) × (100 ≤ length key.old) }
    ensures { LineIs (held_line (held_in held line.now)) key.old key.new result }
{
    let count = held.ok_or(LineError::Bad)?;
    parse_short(&line[..count], key)
}
