// Bytes of a lent slice: moves within a slice, and the comparison of two byte strings. `little` and `big` have the numbers. That a slice is long enough
// stands in each contract: a slice has no type for its least length.
#![tactic(auto)]

pub mod big;
pub mod little;

ghost use Rattle.std.specs.Prelude.{[], ◌∷◌, ◌≡◌, ◌+◌, ◌≤◌, ◌<◌, length};
ghost use Rattle.fields.specs.Part.{part, splice};
ghost use Rattle.fields.specs.Number.{little};
ghost use Rattle.fields.specs.Common.{common, Says, Agree};

use little::read4;

// One byte of a slice is stored: as `write::<1>` each caller would owe that a byte is what its low byte is.
pub fn write1(s: &mut [u8], at: usize, value: u8)
    requires { at + 1 ≤ length s.old }
    ensures { s.new ≡ splice s.old at (value ∷ []) }
{
    s[at] = value;
}

// The n bytes from `at` on, put `by` places further up. `move_down` is no second case of it: they differ in which end has `by`, and docs/TRACE.md names both.
pub fn move_up(s: &mut [u8], at: usize, by: usize, n: usize)
    requires { at + by + n ≤ length s.old }
    ensures { s.new ≡ splice s.old (at + by) (part s.old at n) }
{
    s.copy_within(at..at + n, at + by);
}

// The n bytes from `at + by` on, put `by` places further down.
pub fn move_down(s: &mut [u8], at: usize, by: usize, n: usize)
    requires { at + by + n ≤ length s.old }
    ensures { s.new ≡ splice s.old at (part s.old (at + by) n) }
{
    s.copy_within(at + by..at + by + n, at);
}

// The place of the first byte in which a and b differ; where none does, the shorter one's length. Every search for a difference of two keys is this one.
pub fn first_difference(a: &[u8], b: &[u8]) -> usize
    ensures { result ≡ common a.now b.now }
{
    let shorter = a.len().min(b.len());
    for i in 0..shorter {
        if a[i] != b[i] {
            return i;
        }
    }
    shorter
}

// Eight bytes as one number: the sum compiles to one load.
fn word(s: &[u8], at: usize) -> u64
    requires { at + 8 ≤ length s.now }
    ensures { result ≡ little 8 s.now at }
{
    u64::from(read4(s, at)) + u64::from(read4(s, at + 4)) * 4294967296
}

// Whether eight bytes of a and b are the same.
fn same_eight(a: &[u8], b: &[u8], at: usize) -> bool
    requires { (at + 8 ≤ length a.now) × (at + 8 ≤ length b.now) }
    ensures { Says result (Agree a.now b.now at 8) }
{
    word(a, at) == word(b, at)
}

// Whether a and b are the same bytes, one by one.
fn same_few(a: &[u8], b: &[u8]) -> bool
    requires { length a.now ≡ length b.now }
    ensures { Says result (a.now ≡ b.now) }
{
    for i in 0..a.len() {
        if a[i] != b[i] {
            return false;
        }
    }
    true
}

// Whether a and b are the same bytes: eight at a time, and the last eight once more where they do not start at a multiple of eight. The library's `==` calls a
// function for what is past the first four bytes, and takes twice the time where a and b have some 16 bytes.
pub fn same(a: &[u8], b: &[u8]) -> bool
    ensures { Says result (a.now ≡ b.now) }
{
    let n = a.len();
    if b.len() != n {
        return false;
    }
    if n < 8 {
        return same_few(a, b);
    }
    let last = n - 8;
    let mut i = 0;
    while i < last {
        if same_eight(a, b, i) {
            i += 8;
        } else {
            return false;
        }
    }
    same_eight(a, b, last)
}
