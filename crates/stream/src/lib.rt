// Standard input, piece by piece, and the answers to its lines on standard output. The store, the piece, the line, the output and the two streams are lent side
// by side and not in a struct: Fed names the store, the piece and the line, each before or after the call, and of a struct each contract would name the fields. The
// line's buffer stands beside what is held, since there is no heap.
#![tactic(auto)]

ghost use Rattle.std.specs.Prelude.{◌≡◌, ◌≤◌, length};
ghost use Rattle.promises.specs.Meaning.{Means};
ghost use Rattle.promises.specs.Says.{empty};
ghost use Rattle.index_spec.specs.Layout.{layout};
ghost use Rattle.line.specs.Code.{held_size, held_in};
ghost use Rattle.listings.specs.Listing.{output_room};
ghost use Rattle.stream.specs.Fed.{Fed};

use command::turns::{end_input, take_turn};
use line::pieces::Held;
use line::reading::LINE_LIMIT;
use listings::listing::OUTPUT_ROOM;
use std::io::{Read, Stdin, Stdout, Write};

const STORE_SIZE: usize = 65536;

const LIMIT: u16 = 128;

// Some of the input, so many bytes at the start of the piece: 0 at its end, and where it cannot be read.
fn read_some(stdin: &mut Stdin, piece: &mut [u8]) -> usize
    ensures { result ≤ length piece.new }
{
    stdin.read(piece).unwrap_or(0)
}

// Bytes go to standard output. What it does not take is lost.
fn write_out(stdout: &mut Stdout, bytes: &[u8]) {
    let _ = stdout.write_all(bytes);
}

// "It has a store of 65,536 bytes (511 keys) and limit 128."
fn new_store(store: &mut [u8])
    requires { length store.old ≡ 65536 }
    ensures { Means layout store.new (empty 128 511) }
{
    index::create::create(store, LIMIT).unwrap();
}

// Each line that ends in a piece is answered as soon as it is there. The answer is what is held of the line after them. No index is counted: a turn takes
// what its line has.
fn feed(
    store: &mut [u8],
    piece: &[u8],
    held: Held,
    line: &mut [u8],
    out: &mut [u8],
    stdout: &mut Stdout,
) -> Held
    requires { (length store.old ≤ 65536) × (held_size held ≤ 200) × (200 ≤ length line.old) × (length out.old ≡ output_room) }
    ensures { Fed (held_in held line.old) piece.now line.new store.old store.new result }
{
    let mut held = held;
    let mut rest = piece;
    while !rest.is_empty() {
        let turn = take_turn(store, rest, held, line, out);
        write_out(stdout, &out[..turn.bytes]);
        held = turn.held;
        rest = &rest[turn.used..];
    }
    held
}

// The input is read in pieces as long as their buffer at most. The answer is what is held of a line at its end. The count of the pieces only shows that
// it ends.
fn read_all(
    store: &mut [u8],
    piece: &mut [u8],
    line: &mut [u8],
    out: &mut [u8],
    stdin: &mut Stdin,
    stdout: &mut Stdout,
) -> Held
    requires { (length store.old ≤ 65536) × (200 ≤ length line.old) × (length out.old ≡ output_room) }
    ensures { held_size result ≤ 200 }
{
    let mut held = Some(0);
    for _ in 0..u64::MAX {
        let n = read_some(stdin, piece);
        if n == 0 {
            break;
        }
        held = feed(store, &piece[..n], held, line, out, stdout);
    }
    held
}

// All of the input, and its last line where that has no newline.
fn answer_all(
    store: &mut [u8],
    piece: &mut [u8],
    line: &mut [u8],
    out: &mut [u8],
    stdin: &mut Stdin,
    stdout: &mut Stdout,
)
    requires { (length store.old ≤ 65536) × (200 ≤ length line.old) × (length out.old ≡ output_room) }
{
    let held = read_all(store, piece, line, out, stdin, stdout);
    let n = end_input(store, held, line, out);
    write_out(stdout, &out[..n]);
}

// Standard input is read and answered with an empty store of 65,536 bytes.
pub fn serve(piece: &mut [u8], mut stdin: Stdin, mut stdout: Stdout) {
    let mut store = [0u8; STORE_SIZE];
    let mut line = [0u8; LINE_LIMIT];
    let mut out = [0u8; OUTPUT_ROOM];
    new_store(&mut store);
    answer_all(
        &mut store,
        piece,
        &mut line,
        &mut out,
        &mut stdin,
        &mut stdout,
    );
}
