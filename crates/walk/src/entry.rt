// An entry: two tagged fields, each a tag, the length of its contents in two bytes, high byte first, and the contents.
ghost use Rattle.std.specs.Prelude.{◌≡◌, ◌≤◌, ◌+◌, length};
ghost use Rattle.model.specs.Numbers.{entry_limit};
ghost use Rattle.model.specs.Entry.{entry_bytes};
ghost use Rattle.fields.specs.Part.{splice};
ghost use Rattle.node.specs.Layout.{Room};
ghost use Rattle.walk.specs.Walk.{field_head, entry_in};

use fields::big::write;
use fields::write1;
use node::child::LeafNo;
use node::layout::KEY_LIMIT;

const KEY_TAG: u8 = 1;

const VALUE_TAG: u8 = 2;

// The tag and the length of a field, and the contents of a value's.
const FIELD_HEAD: usize = 3;

const VALUE_SIZE: u16 = 4;

// An entry without its key.
const ENTRY_REST: usize = 10;

// The longest entry.
pub const ENTRY_LIMIT: usize = KEY_LIMIT + ENTRY_REST;

// The tag and the length of a field.
fn put_head(out: &mut [u8], at: usize, tag: u8, size: u16)
    requires { at + 3 ≤ length out.old }
    ensures { out.new ≡ splice out.old at (field_head tag size) }
{
    write1(out, at, tag);
    write::<2>(out, at + 1, size as u32);
}

// The entry of a leaf goes to the start of the output. The answer is its size: with no heap the entry goes into lent bytes.
pub fn write_entry(store: &[u8], leaf: LeafNo, out: &mut [u8]) -> usize
    requires { (Room store.now leaf.0) × (entry_limit ≤ length out.old) }
    ensures bytes { out.new ≡ splice out.old 0 (entry_bytes (entry_in store.now leaf.0)) }
    ensures size { (result ≡ length (entry_bytes (entry_in store.now leaf.0))) × (result ≤ entry_limit) }
{
    let key = node::leaf::key(store, leaf);
    let n = key.len();
    put_head(out, 0, KEY_TAG, n as u16);
    let e = FIELD_HEAD + n;
    out[FIELD_HEAD..e].copy_from_slice(key);
    put_head(out, e, VALUE_TAG, VALUE_SIZE);
    write::<4>(out, e + FIELD_HEAD, node::leaf::value(store, leaf));
    n + ENTRY_REST
}
