// The bytes of a store and its guard: overwritten, hashed.
ghost use Rattle.std.specs.Prelude.{◌≤◌, ◌<◌};

// The bytes behind a store that no call may change.
pub const GUARD: usize = 256;

// One byte more in a hash: another byte is another hash.
fn mix(h: u64, b: u8) -> u64
    requires { h < 549755813888 }
    ensures { result < 549755813888 }
{
    let x = (h + u64::from(b)) % 549755813888;
    x * 16777619 % 549755813888
}

// A hash of 39 bits: a change of one byte always changes it.
pub fn hash(s: &[u8]) -> u64 {
    let mut h = 2166136261;
    for b in s {
        h = mix(h, *b);
    }
    h
}

// Bytes written at a place of a store, if it has them all.
pub fn write(store: &mut [u8], at: usize, bytes: &[u8]) {
    if at <= store.len() && bytes.len() <= store.len() - at {
        store[at..at + bytes.len()].copy_from_slice(bytes);
    }
}
