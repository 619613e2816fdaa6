// The parts of the 55 bytes: the bitmap, and the item at each place.
ghost use Rattle.std.specs.Prelude.{◌≡◌, ◌≤◌, ◌<◌, length};
ghost use Rattle.sparse_array.specs.Array.{size, bitmap_of, item_at, with_bitmap, with_item, opened, closed};

use fields::little::{read3, read4, write, write4};

pub fn bitmap(s: &[u8]) -> u32
    requires { length s.now ≡ size }
    ensures { (result ≡ bitmap_of s.now) × (result < 131072) }
{
    read4(s, 0) % 131072
}

pub fn put_bitmap(s: &mut [u8], bits: u32)
    requires { length s.old ≡ size }
    ensures { s.new ≡ with_bitmap s.old bits }
{
    write4(s, 0, bits);
}

pub fn item(s: &[u8], at: usize) -> u32
    requires { (length s.now ≡ size) × (at ≤ 16) }
    ensures { (result ≡ item_at s.now at) × (result < 16777216) }
{
    read3(s, 4 + 3 * at)
}

pub fn put_item(s: &mut [u8], at: usize, value: u32)
    requires { (length s.old ≡ size) × (at ≤ 16) }
    ensures { s.new ≡ with_item s.old at value }
{
    write::<3>(s, 4 + 3 * at, value);
}

// The items from place `at` on, up to the count `n`, move up by one: place `at` is left as it was.
pub fn open(s: &mut [u8], at: usize, n: usize)
    requires { (length s.old ≡ size) × ((at ≤ n) × (n ≤ 16)) }
    ensures { s.new ≡ opened at n s.old }
{
    fields::move_up(s, 4 + 3 * at, 3, 3 * (n - at));
}

// The items after place `at`, up to the count `n`, move down by one, over the one at `at`.
pub fn close(s: &mut [u8], at: usize, n: usize)
    requires { (length s.old ≡ size) × ((at < n) × (n ≤ 17)) }
    ensures { s.new ≡ closed at n s.old }
{
    fields::move_down(s, 4 + 3 * at, 3, 3 * (n - at - 1));
}
