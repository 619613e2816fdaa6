// Numbers of 2 to 4 bytes in a slice, the low byte first, as a store has them. Of a number that is written in N bytes its N low bytes count.
// The width of a write is known where the code is compiled, so that its loop becomes one store, but for what `write4` is for. A read is a sum for each width:
// as one loop over the width it is unrolled too late to become one load, a lookup has an eighth more instructions, and removals take 0.75 to 0.77 of the
// original's time, where 0.75 at most is asked and these sums take 0.67 to 0.68.
ghost use Rattle.std.specs.Prelude.{◌≡◌, ◌+◌, ◌≤◌, ◌<◌, length};
ghost use Rattle.fields.specs.Part.{splice};
ghost use Rattle.fields.specs.Number.{little, little_bytes};

pub fn read2(s: &[u8], at: usize) -> u16
    requires { at + 2 ≤ length s.now }
    ensures { (result ≡ little 2 s.now at) × (result < 65536) }
{
    (s[at] as u32 + s[at + 1] as u32 * 256) as u16
}

pub fn read3(s: &[u8], at: usize) -> u32
    requires { at + 3 ≤ length s.now }
    ensures { (result ≡ little 3 s.now at) × (result < 16777216) }
{
    s[at] as u32 + s[at + 1] as u32 * 256 + s[at + 2] as u32 * 65536
}

pub fn read4(s: &[u8], at: usize) -> u32
    requires { at + 4 ≤ length s.now }
    ensures { (result ≡ little 4 s.now at) × (result < 4294967296) }
{
    s[at] as u32 + s[at + 1] as u32 * 256 + s[at + 2] as u32 * 65536 + s[at + 3] as u32 * 16777216
}

pub fn write<const N: usize>(s: &mut [u8], at: usize, value: u32)
    requires { at + N ≤ length s.old }
    ensures { s.new ≡ splice s.old at (little_bytes N value) }
{
    let mut rest = value;
    for i in 0..N {
        s[at + i] = (rest % 256) as u8;
        rest /= 256;
    }
}

// Four bytes of a number by a list of stores, which compiles to one. The loop of `write` does not where the top byte is known to be 0, as a bitmap's is: it
// becomes four stores, for which the next read of the bitmap has to wait. Nor does the list where it has one caller: all that write four bytes of a store call it.
pub fn write4(s: &mut [u8], at: usize, value: u32)
    requires { at + 4 ≤ length s.old }
    ensures { s.new ≡ splice s.old at (little_bytes 4 value) }
{
    s[at] = (value % 256) as u8;
    s[at + 1] = (value / 256 % 256) as u8;
    s[at + 2] = (value / 65536 % 256) as u8;
    s[at + 3] = (value / 16777216) as u8;
}

// Two bytes of a number that fits them: its callers have a u16, and a cast at each is no plainer.
pub fn write2(s: &mut [u8], at: usize, value: u16)
    requires { at + 2 ≤ length s.old }
    ensures { s.new ≡ splice s.old at (little_bytes 2 value) }
{
    write::<2>(s, at, value as u32);
}
