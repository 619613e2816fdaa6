// Numbers of up to 4 bytes in a slice, the high byte first, as entries have them. `little` stays apart: a trait for the order would be longer than two loops.
ghost use Rattle.std.specs.Prelude.{◌≡◌, ◌+◌, ◌^◌, ◌≤◌, ◌<◌, length};
ghost use Rattle.fields.specs.Part.{splice};
ghost use Rattle.fields.specs.Number.{big, big_bytes};

pub fn read<const N: usize>(s: &[u8], at: usize) -> u32
    requires { (N ≤ 4) × (at + N ≤ length s.now) }
    ensures { (result ≡ big N s.now at) × (result < 256 ^ N) }
{
    let mut number = 0;
    for i in 0..N {
        number = number * 256 + s[at + i] as u32;
    }
    number
}

pub fn write<const N: usize>(s: &mut [u8], at: usize, value: u32)
    requires { at + N ≤ length s.old }
    ensures { s.new ≡ splice s.old at (big_bytes N value) }
{
    let mut rest = value;
    for i in (0..N).rev() {
        s[at + i] = (rest % 256) as u8;
        rest /= 256;
    }
}
