// A bitmap of 17 slots in a u32. Each contract says what the function does to the list of digits. A bitmap is a plain number, for `present` and `place`,
// which docs/TRACE.md names, promise on any u32, and a type with the bound would ask more. A slot is one for the sparse array's calls, which take any and
// refuse those over 16.
ghost use Rattle.std.specs.Prelude.{◌≡◌, false, true, ◌≤◌, ◌<◌, get_or, set, take};
ghost use Rattle.bitmap.specs.Bits.{count as count_of, lowest as lowest_of, present as present_in};

// Whether a slot is present.
pub fn present(bits: u32, slot: u8) -> bool
    requires { slot ≤ 16 }
    ensures { result ≡ get_or (present_in bits) slot false }
{
    bits & (1 << slot) != 0
}

// The place of a slot: the number of present slots below it.
pub fn place(bits: u32, slot: u8) -> usize
    requires { slot ≤ 16 }
    ensures { (result ≡ count_of (take slot (present_in bits))) × (result ≤ 16) }
{
    let mask = (1u32 << slot) - 1;
    (bits & mask).count_ones() as usize
}

// The number of present slots.
pub fn count(bits: u32) -> usize
    requires { bits < 131072 }
    ensures { (result ≡ count_of (present_in bits)) × (result ≤ 17) }
{
    bits.count_ones() as usize
}

// The lowest present slot of a bitmap that has one.
pub fn lowest(bits: u32) -> u8
    requires { 0 < count_of (present_in bits) }
    ensures { (result ≡ lowest_of (present_in bits)) × (result ≤ 16) }
{
    bits.trailing_zeros() as u8
}

// The bitmap with a slot.
pub fn with(bits: u32, slot: u8) -> u32
    requires { (bits < 131072) × (slot ≤ 16) }
    ensures { (present_in result ≡ set (present_in bits) slot true) × (result < 131072) }
{
    bits | (1 << slot)
}

// The bitmap without a slot.
pub fn without(bits: u32, slot: u8) -> u32
    requires { (bits < 131072) × (slot ≤ 16) }
    ensures { (present_in result ≡ set (present_in bits) slot false) × (result < 131072) }
{
    bits & !(1 << slot)
}
