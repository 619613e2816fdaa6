// A page: one way down to where the keys with the prefix stand, one to the closest leaf to the key that the page begins at, and a walk over what is given.
// That the capacity fits the store stands in each contract: `list`, which docs/TRACE.md names, takes any store and number that fit, and a type with that
// invariant would ask more of its callers. No struct of both for the private ones:
// each `ensures` would name its two fields, and each call of `node`, which takes a store and a number, would take it apart.
// Prefix, bound and size go side by side: `list` takes them so, `list_past` has no use for the prefix, and each of the others hands most of them on.
ghost use Rattle.std.specs.Prelude.{◌≡◌, ◌≤◌, ◌<◌, ◌*◌, length};
ghost use Rattle.model.specs.Key.{key_limit, starts_with};
ghost use Rattle.model.specs.Nibble.{critical as critical_of};
ghost use Rattle.model.specs.Numbers.{entry_limit};
ghost use Rattle.pictures.specs.After.{passes};
ghost use Rattle.node.specs.Layout.{start};
ghost use Rattle.node.specs.Child.{number_in};
ghost use Rattle.node.specs.Leaf.{leaf_in};
ghost use Rattle.trie_spec.specs.Writes.{Did};
ghost use Rattle.iterator.specs.Page.{nothing, listed_of, list_past, list_under, list_from, list_in};

use lookup::descent::{DEPTH, descend, find_closest_leaf};
use lookup::keys::{critical, nibble};
use node::NotAStore;
use node::child::{LeafNo, Link, link_of};
use node::header::Header;
use trie_spec::descent::Walked;
use walk::walk::{Progress, Stop, emit_after};

// The entries given, the bytes that they take in the output, and whether no further one is stored.
#[derive(Clone, Copy, Debug, PartialEq, Eq)]
pub struct Page {
    pub entries: usize,
    pub bytes: usize,
    pub end: bool,
}

// A page without an entry, after which there is none.
fn no_entry() -> Page
    ensures { result ≡ nothing }
{
    Page {
        entries: 0,
        bytes: 0,
        end: true,
    }
}

// What a walk that was to give n entries comes to. Where it met what no tree has, a page that has given entries cannot be refused any more, since a refusal
// changes no byte; it does not say end.
fn page_of(p: Progress, n: usize) -> Result<Page, NotAStore>
    requires { p.left ≤ n }
    ensures { result ≡ listed_of n p.at p.left p.stop }
{
    let entries = n - p.left;
    let bytes = p.at;
    match p.stop {
        Stop::Going => Ok(Page {
            entries,
            bytes,
            end: true,
        }),
        Stop::Further => Ok(Page {
            entries,
            bytes,
            end: false,
        }),
        Stop::Wrong => {
            if entries == 0 {
                return Err(NotAStore);
            }
            Ok(Page {
                entries,
                bytes,
                end: false,
            })
        }
    }
}

// The model's word for it: of the library's method, which speaks of tests of elements, a law would have to say that it is the same.
fn starts_with(prefix: &[u8], key: &[u8]) -> bool
    ensures { result ≡ starts_with prefix.now key.now }
{
    fields::first_difference(prefix, key) == prefix.len()
}

// Whether a key lies past the bound, or is equal to it where that counts too. `place` is their critical position.
fn lies_past(bound: &[u8], key: &[u8], place: usize, too: bool) -> bool
    requires { place ≡ critical_of bound.now key.now }
    ensures { result ≡ passes too bound.now key.now }
{
    let x = nibble(bound, place);
    let y = nibble(key, place);
    x < y || (x == y && too)
}

// The page below a link, beside the closest leaf to the bound.
fn list_past(
    store: &[u8],
    capacity: u16,
    bound: &[u8],
    too: bool,
    n: usize,
    link: Link,
    closest: LeafNo,
    out: &mut [u8],
) -> Result<Page, NotAStore>
    requires { (start capacity ≤ length store.now) × (number_in link.child < capacity) × (closest.0 < capacity) × (length bound.now ≤ key_limit) × (entry_limit * n ≤ length out.old) }
    ensures { Did (list_past store.now capacity bound.now too n out.old link (leaf_in store.now closest.0).key) result out.new }
{
    let key = node::leaf::key(store, closest);
    let place = critical(bound, key);
    let up = lies_past(bound, key, place, too);
    let blank = Progress {
        at: 0,
        left: n,
        stop: Stop::Going,
    };
    let p = emit_after(store, capacity, bound, place, up, link, DEPTH, out, blank);
    page_of(p, n)
}

// The page below a link whose keys all start with the prefix or all do not. It begins past the bound, or at it.
fn list_under(
    store: &[u8],
    capacity: u16,
    prefix: &[u8],
    bound: &[u8],
    too: bool,
    n: usize,
    link: Link,
    out: &mut [u8],
) -> Result<Page, NotAStore>
    requires { (start capacity ≤ length store.now) × (number_in link.child < capacity) × (length bound.now ≤ key_limit) × (entry_limit * n ≤ length out.old) }
    ensures { Did (list_under store.now capacity prefix.now bound.now too n out.old link) result out.new }
{
    let closest = find_closest_leaf(store, capacity, bound, link)?;
    if starts_with(prefix, node::leaf::key(store, closest.leaf)) {
        return list_past(store, capacity, bound, too, n, link, closest.leaf, out);
    }
    Ok(no_entry())
}

fn list_from(
    store: &[u8],
    capacity: u16,
    prefix: &[u8],
    bound: &[u8],
    too: bool,
    n: usize,
    root: Link,
    out: &mut [u8],
) -> Result<Page, NotAStore>
    requires { (start capacity ≤ length store.now) × (number_in root.child < capacity) × (length prefix.now ≤ key_limit) × (length bound.now ≤ key_limit) × (entry_limit * n ≤ length out.old) }
    ensures { Did (list_from store.now capacity prefix.now bound.now too n out.old root) result out.new }
{
    match descend(store, capacity, prefix, root, 2 * prefix.len())? {
        Walked::At(_met, step) => {
            list_under(store, capacity, prefix, bound, too, n, step.link(), out)
        }
        Walked::Missing(_b, _s) => Ok(no_entry()),
    }
}

// The first n entries under a prefix that lie past a bound, or at it where that counts too, in a store whose header is h.
pub fn list(
    store: &[u8],
    h: Header,
    prefix: &[u8],
    bound: &[u8],
    too: bool,
    n: usize,
    out: &mut [u8],
) -> Result<Page, NotAStore>
    requires { (start h.capacity ≤ length store.now) × (length prefix.now ≤ key_limit) × (length bound.now ≤ key_limit) × (entry_limit * n ≤ length out.old) }
    ensures { Did (list_in store.now h prefix.now bound.now too n out.old) result out.new }
{
    if h.leaves == 0 {
        return Ok(no_entry());
    }
    let root = link_of(h.root, h.capacity)?;
    list_from(store, h.capacity, prefix, bound, too, n, root, out)
}
