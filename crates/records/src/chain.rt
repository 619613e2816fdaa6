// Free records. Those of each kind are a chain through the records themselves: the header has the first one, and each has the number of the next; 65,535
// ends a chain. A free leaf has the length 255 and the next number in its value bytes, a free branch has no child and the next number in its first item.
// Taking and giving are at the head.
// That the store has room stands in the contracts: `take` and `give`, which docs/TRACE.md names, take any store and number that fit, and a type with that invariant
// would ask more of their callers; the functions of the trait take what these have. Of a store that is written the fact would have to be proved again after each write.
ghost use Rattle.std.specs.Prelude.{ℕ, ◌≡◌, ◌≤◌, length, refl};
ghost use Rattle.fields.specs.Part.{splice};
ghost use Rattle.fields.specs.Number.{little_bytes};
ghost use Rattle.sparse_array.specs.Array.{size as array_size, cleared};
ghost use Rattle.node.specs.Layout.{start, Room};
ghost use Rattle.records.specs.Chain.{Kind, leaves as leaf_kind, branches as branch_kind, taken_record, gave, leaf_at, branch_at};

use fields::little::{read2, write2};
use fields::write1;
use node::branch::{array, child_count};
use node::child::{BranchNo, LeafNo};
use node::header::Header;
use node::layout::{ARRAY, FREE, array_at, size_at, value_at};

// A kind of record: what differs between leaves and branches in a chain of free ones. `numbers` says that the record of a number has that number. `From` for the
// two ways between them is no plainer: the law would speak of the `from_gives` of both.
pub trait Record: Copy {
    ghost kind: { Kind };

    ghost at: { ℕ → Self };

    ghost number: { Self → ℕ };

    // The record of a number.
    fn numbered(n: u16) -> Self
        ensures { result ≡ at n };

    fn number(self) -> u16
        ensures { result ≡ number self };

    fn is_free(self, store: &[u8]) -> bool
        requires { Room store.now (number self) }
        ensures { result ≡ kind.is_free store.now (number self) };

    // The number after a free record.
    fn next(self, store: &[u8]) -> u16
        requires { Room store.now (number self) }
        ensures { result ≡ kind.next store.now (number self) };

    // The record becomes free, with a number after it.
    fn free(self, store: &mut [u8], next: u16)
        requires { Room store.old (number self) }
        ensures { store.new ≡ kind.freed store.old (number self) next };

    // The header's first free record and its count of those in use, and the header with others.
    fn head(h: Header) -> (u16, u16)
        ensures { result ≡ (kind.first h, kind.used h) };

    fn with_head(h: Header, first: u16, used: u16) -> Header
        ensures { result ≡ kind.with h first used };

    ghost numbers: { (n : ℕ) → number (at n) ≡ n };
}

impl Record for LeafNo {
    ghost kind = { leaf_kind };

    ghost at = { leaf_at };

    ghost number = { λ r. r.0 };

    ghost numbers = { λ n. refl };

    fn numbered(n: u16) -> LeafNo {
        LeafNo(n)
    }

    fn number(self) -> u16 {
        self.0
    }

    fn is_free(self, store: &[u8]) -> bool {
        let a = size_at(self);
        store[a] == FREE
    }

    fn next(self, store: &[u8]) -> u16 {
        let a = value_at(self);
        read2(store, a)
    }

    fn free(self, store: &mut [u8], next: u16) {
        let t = size_at(self);
        write1(store, t, FREE);
        let v = value_at(self);
        write2(store, v, next);
    }

    fn head(h: Header) -> (u16, u16) {
        (h.leaf, h.leaves)
    }

    fn with_head(h: Header, first: u16, used: u16) -> Header {
        Header {
            leaf: first,
            leaves: used,
            ..h
        }
    }
}

// The array of a free branch record.
fn empty_array(s: &mut [u8], next: u16)
    requires { length s.old ≡ array_size }
    ensures { s.new ≡ splice (cleared s.old) 4 (little_bytes 2 next) }
{
    sparse_array::clear(s);
    write2(s, 4, next);
}

impl Record for BranchNo {
    ghost kind = { branch_kind };

    ghost at = { branch_at };

    ghost number = { λ r. r.0 };

    ghost numbers = { λ n. refl };

    fn numbered(n: u16) -> BranchNo {
        BranchNo(n)
    }

    fn number(self) -> u16 {
        self.0
    }

    fn is_free(self, store: &[u8]) -> bool {
        child_count(store, self) == 0
    }

    fn next(self, store: &[u8]) -> u16 {
        read2(array(store, self), 4)
    }

    fn free(self, store: &mut [u8], next: u16) {
        let a = array_at(self);
        let e = a + ARRAY;
        empty_array(&mut store[a..e], next);
    }

    fn head(h: Header) -> (u16, u16) {
        (h.branch, h.branches)
    }

    fn with_head(h: Header, first: u16, used: u16) -> Header {
        Header {
            branch: first,
            branches: used,
            ..h
        }
    }
}

// The first free record of a kind, with the header once it is taken; nothing where none is free or the chain is broken. The store stays: the record is in
// use once that header is written.
pub fn take<R: Record>(store: &[u8], h: Header) -> Option<(R, Header)>
    requires { start h.capacity ≤ length store.now }
    ensures { result ≡ taken_record R.at R.kind store.now h }
{
    let (n, used) = R::head(h);
    if h.capacity <= n || h.capacity <= used {
        return None;
    }
    let record = R::numbered(n);
    if !record.is_free(store) {
        return None;
    }
    let next = record.next(store);
    Some((record, R::with_head(h, next, used + 1)))
}

// A record is given back, and comes first in its chain. The header that is returned is yet to be written.
pub fn give<R: Record>(store: &mut [u8], h: Header, given: R) -> Header
    requires { Room store.old (R.number given) }
    ensures bytes { store.new ≡ R.kind.freed store.old (R.number given) (R.kind.first h) }
    ensures head { result ≡ gave R.kind h (R.number given) }
{
    let (first, used) = R::head(h);
    given.free(store, first);
    R::with_head(h, given.number(), used.saturating_sub(1))
}
