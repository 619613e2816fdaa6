// A driver for comparisons: reads a script of calls from standard input, makes the calls on one store, and writes each answer to standard output.
//
// A record of the script is a letter and its fields; numbers are little endian, and a key has one byte of length before it. No record crosses a place of the
// script that is a multiple of 65,536; any other byte where a record might start is skipped.
//
//     Z len(4)                 the store is the first len bytes; they and the guard behind them become A5
//     W at(4) n(1) bytes       n bytes of the store are overwritten
//     H                        8 bytes: a hash of the store and the guard
//     D at(4) n(2)             n bytes of the store
//     C limit(2)               create               K    check           E    is_empty
//     L limit(2)               set_limit            I key value(4)       insert
//     G key                    get                  O key value(4)       overwrite            R key    remove
//     F mode(1) n(4) room(4) prefix                 first_page
//     N mode(1) n(4) room(4) prefix after           next_page
//
// An answer is its number, one byte; a get has the value behind it, 4 bytes, and is_empty 1 or 0, one byte. A page has the count of its entries (2), of
// their bytes (4), the end mark (1), these bytes, and 1 if the rest of the output is untouched.
#![tactic(auto)]

ghost use Rattle.std.specs.Prelude.{◌≤◌, length};

mod calls;
mod input;
mod output;
mod space;

use calls::answer;
use input::read_record;
use output::Output;
use std::io::{Read, Stdin, Stdout, Write};

// Bytes of the input until the buffer is full, or the input ends or cannot be read. A read gives any number of them, so the place is no counted index.
fn read_full(stdin: &mut Stdin, buf: &mut [u8]) -> usize
    ensures { result ≤ length buf.new }
{
    let mut done = 0;
    while done < buf.len() {
        let n = stdin.read(&mut buf[done..]).unwrap_or(0);
        if n == 0 {
            break;
        }
        done += n;
    }
    done
}

// With no more bytes than these the output has room for any one answer.
const ENOUGH: usize = 131072;

// The output is written once it has more bytes than that. What standard output does not take is lost.
fn flush(out: &mut Output, stdout: &mut Stdout) {
    if ENOUGH < out.filled() {
        let _ = stdout.write_all(out.bytes());
        out.clear();
    }
}

// The records of a block. No index is counted: a record has as many bytes as it likes.
fn play(
    block: &[u8],
    all: &mut [u8],
    len: usize,
    page: &mut [u8],
    out: &mut Output,
    stdout: &mut Stdout,
) -> usize {
    let mut len = len;
    let mut rest = block;
    while !rest.is_empty() {
        let (record, used) = read_record(rest);
        flush(out, stdout);
        len = answer(all, len, page, out, record);
        rest = rest.get(used..).unwrap_or(&[]);
    }
    len
}

// The whole script, block by block. The count of the blocks only shows that it ends.
fn play_all(
    all: &mut [u8],
    page: &mut [u8],
    out: &mut Output,
    stdin: &mut Stdin,
    stdout: &mut Stdout,
) {
    let mut block = [0u8; 65536];
    let mut len = 0;
    for _ in 0..u64::MAX {
        let n = read_full(stdin, &mut block);
        if n == 0 {
            break;
        }
        len = play(&block[..n], all, len, page, out, stdout);
    }
    let _ = stdout.write_all(out.bytes());
}

fn run(all: &mut [u8], stdin: &mut Stdin, stdout: &mut Stdout) {
    let mut page = [0u8; 32768];
    let mut buffer = [0u8; 262144];
    let mut out = Output::new(&mut buffer);
    play_all(all, &mut page, &mut out, stdin, stdout);
}

// An array behind a reference is lent with no proof of its length, which at this size is more than the checker follows.
fn lend(space: &mut [u8; 2097920], stdin: &mut Stdin, stdout: &mut Stdout) {
    run(space, stdin, stdout);
}

fn main(rt: HostRuntime) {
    let mut stdin = rt.stdin();
    let mut stdout = rt.stdout();
    let mut space = [0u8; 2097920];
    lend(&mut space, &mut stdin, &mut stdout);
}
