// The records of a script. A field that the bytes do not have is 0, and a part that they do not have is empty.
ghost use Rattle.std.specs.Prelude.{◌≤◌, ◌<◌};

use index::pages::Mode;
use numbers::numbers::mode_named;
use std::array::from_fn;

// What a page is asked for: its mode, its size, the room for its bytes and its prefix.
#[derive(Clone, Copy)]
pub struct Asked<'a> {
    pub mode: Mode,
    pub size: u32,
    pub room: usize,
    pub prefix: &'a [u8],
}

#[derive(Clone, Copy)]
pub enum Record<'a> {
    New(usize),
    Write(usize, &'a [u8]),
    Hash,
    Dump(usize, usize),
    Create(u16),
    Check,
    IsEmpty,
    SetLimit(u16),
    Insert(&'a [u8], u32),
    Get(&'a [u8]),
    Overwrite(&'a [u8], u32),
    Remove(&'a [u8]),
    FirstPage(Asked<'a>),
    NextPage(Asked<'a>, &'a [u8]),
    Skipped,
}

fn byte(s: &[u8], at: usize) -> usize
    ensures { result < 256 }
{
    s.get(at).map_or(0, |b| usize::from(*b))
}

// The N bytes from `at` on.
fn field<const N: usize>(s: &[u8], at: usize) -> [u8; N] {
    from_fn(|i| s.get(at.saturating_add(i)).map_or(0, |b| *b))
}

fn two(s: &[u8], at: usize) -> u16 {
    u16::from_le_bytes(field(s, at))
}

fn four(s: &[u8], at: usize) -> u32 {
    u32::from_le_bytes(field(s, at))
}

// A size or a place, as an index.
fn size_at(s: &[u8], at: usize) -> usize {
    four(s, at) as usize
}

// The n bytes from `at` on.
pub fn part(s: &[u8], at: usize, n: usize) -> &[u8] {
    s.get(at..).and_then(|t| t.get(..n)).unwrap_or(&[])
}

// A key with its length before it.
fn key_at(s: &[u8], at: usize) -> &[u8] {
    part(s, at.saturating_add(1), byte(s, at))
}

fn page_asked(s: &[u8]) -> Asked<'_> {
    Asked {
        mode: mode_named(byte(s, 1) != 0),
        size: four(s, 2),
        room: size_at(s, 6),
        prefix: key_at(s, 10),
    }
}

// The record at the start of s, and how many bytes it has.
pub fn read_record(s: &[u8]) -> (Record<'_>, usize)
    ensures { (1 ≤ result.1) × (result.1 ≤ 600) }
{
    let k = byte(s, 1);
    match byte(s, 0) as u8 {
        b'Z' => (Record::New(size_at(s, 1)), 5),
        b'W' => (
            Record::Write(size_at(s, 1), part(s, 6, byte(s, 5))),
            6 + byte(s, 5),
        ),
        b'H' => (Record::Hash, 1),
        b'D' => (Record::Dump(size_at(s, 1), usize::from(two(s, 5))), 7),
        b'C' => (Record::Create(two(s, 1)), 3),
        b'K' => (Record::Check, 1),
        b'E' => (Record::IsEmpty, 1),
        b'L' => (Record::SetLimit(two(s, 1)), 3),
        b'I' => (Record::Insert(key_at(s, 1), four(s, k + 2)), k + 6),
        b'G' => (Record::Get(key_at(s, 1)), k + 2),
        b'O' => (Record::Overwrite(key_at(s, 1), four(s, k + 2)), k + 6),
        b'R' => (Record::Remove(key_at(s, 1)), k + 2),
        b'F' => (Record::FirstPage(page_asked(s)), 11 + byte(s, 10)),
        b'N' => {
            let e = 11 + byte(s, 10);
            (
                Record::NextPage(page_asked(s), key_at(s, e)),
                e + 1 + byte(s, e),
            )
        }
        _ => (Record::Skipped, 1),
    }
}
