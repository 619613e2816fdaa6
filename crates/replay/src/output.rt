// The answers so far: bytes at the start of a lent buffer. What has no room is left out.
ghost use Rattle.std.specs.Prelude.{◌≤◌, length};

#[derive(Drop)]
pub struct Output<'a> {
    buffer: &'a mut [u8],
    filled: usize,
    ghost within: { filled ≤ length buffer.now },
}

// The low byte of a number.
fn low(x: u64) -> u8 {
    (x % 256) as u8
}

impl<'a> Output<'a> {
    pub fn new(buffer: &'a mut [u8]) -> Self {
        Output { buffer, filled: 0 }
    }

    pub fn filled(&self) -> usize {
        self.filled
    }

    pub fn bytes(&self) -> &[u8] {
        &self.buffer[..self.filled]
    }

    // The buffer begins anew.
    pub fn clear(&mut self) {
        self.filled = 0;
    }

    pub fn put1(&mut self, b: u8) {
        if self.filled < self.buffer.len() {
            self.buffer[self.filled] = b;
            self.filled += 1;
        }
    }

    // The number of an answer, which is one byte.
    pub fn put_number(&mut self, answer: u32) {
        self.put1(low(u64::from(answer)));
    }

    // The low bytes of a number, so many, the lowest first: byte by byte, since an output that is nearly full takes what it has room for.
    pub fn put<const N: usize>(&mut self, x: u64) {
        let mut rest = x;
        for _ in 0..N {
            self.put1(low(rest));
            rest /= 256;
        }
    }

    // The bytes of a slice, all or none.
    pub fn append(&mut self, bytes: &[u8]) {
        let n = self.filled;
        if bytes.len() <= self.buffer.len() - n {
            let e = n + bytes.len();
            self.buffer[n..e].copy_from_slice(bytes);
            self.filled = e;
        }
    }
}
