// Nibbles of a key, and the first position where two keys differ.
ghost use Rattle.std.specs.Prelude.{◌≡◌, ◌≤◌, ◌<◌, length};
ghost use Rattle.model.specs.Key.{key_limit};
ghost use Rattle.model.specs.Nibble.{nibble as nibble_of, slot_count, critical as critical_of};

// The nibble of a key at a position: half p % 2 of byte p / 2 plus 1, and 0 past the end.
pub fn nibble(key: &[u8], p: usize) -> u8
    ensures value { result ≡ nibble_of key.now p }
    ensures slot { result < slot_count }
{
    let i = p / 2;
    if key.len() <= i {
        return 0;
    }
    let b = key[i];
    if p % 2 == 0 { b / 16 + 1 } else { b % 16 + 1 }
}

// The first position where the nibbles of two keys differ. (Where one starts with the other, and of equal keys: twice the shorter length.)
pub fn critical(a: &[u8], b: &[u8]) -> usize
    requires { length a.now ≤ key_limit }
    ensures { result ≡ critical_of a.now b.now }
{
    let i = fields::first_difference(a, b);
    if a.len() <= i {
        return 2 * i;
    }
    if b.len() <= i {
        return 2 * i;
    }
    if a[i] / 16 != b[i] / 16 {
        return 2 * i;
    }
    2 * i + 1
}
