// Keys in hex, numbers in decimal and answers written. Each function writes at the start of a lent output and returns how many bytes it wrote; the caller
// lends the rest on: there is no heap for a String, and `Wrote`, by which the program's promises are stated, names the output and the count.
ghost use Rattle.std.specs.Prelude.{◌≡◌, ◌+◌, ◌*◌, ◌/◌, ◌%◌, ◌≤◌, ◌<◌, length};
ghost use Rattle.line.specs.Text.{digit_text, key_text, digits_text, number_text};
ghost use Rattle.line.specs.Answer.{answer_text, entry_text};
ghost use Rattle.line.specs.Code.{Wrote};

fn digit_text(d: u8) -> u8
    requires { d < 16 }
    ensures { result ≡ digit_text d }
{
    if d < 10 { d + b'0' } else { d - 10 + b'a' }
}

pub fn put_word(word: &[u8], out: &mut [u8]) -> usize
    requires { length word.now ≤ length out.old }
    ensures { Wrote word.now out.old out.new result }
{
    out[..word.len()].copy_from_slice(word);
    word.len()
}

// A key in hex, `-` for the empty one.
pub fn put_key(key: &[u8], out: &mut [u8]) -> usize
    requires { 2 * length key.now < length out.old }
    ensures { Wrote (key_text key.now) out.old out.new result }
{
    if key.is_empty() {
        out[0] = b'-';
        return 1;
    }
    for (i, b) in key.iter().enumerate() {
        out[2 * i] = digit_text(*b / 16);
        out[2 * i + 1] = digit_text(*b % 16);
    }
    2 * key.len()
}

// A number in at most so many digits: a recursion, as `digits_text` is, since the highest digit is written first and found last.
fn put_digits(places: usize, value: u32, out: &mut [u8]) -> usize
    requires { places ≤ length out.old }
    ensures { Wrote (digits_text places value) out.old out.new result }
{
    if places == 0 {
        return 0;
    }
    if value < 10 {
        out[0] = value as u8 + b'0';
        return 1;
    }
    let n = put_digits(places - 1, value / 10, out);
    out[n] = (value % 10) as u8 + b'0';
    n + 1
}

// A number without leading zeros.
pub fn put_number(value: u32, out: &mut [u8]) -> usize
    requires { 10 ≤ length out.old }
    ensures { Wrote (number_text value) out.old out.new result }
{
    put_digits(10, value, out)
}

// The answers that are one line.
#[derive(Clone, Copy, Debug, PartialEq, Eq)]
pub enum Answer {
    New,
    Replaced,
    Height,
    Full,
    Value(u32),
    Absent,
    Removed,
    End,
    Bad,
    Key,
}

// An answer's line, with its newline: at most 11 bytes. No Display: Wrote says which bytes stand in the lent output.
pub fn put_answer(answer: Answer, out: &mut [u8]) -> usize
    requires { 11 ≤ length out.old }
    ensures { Wrote (answer_text answer) out.old out.new result }
{
    match answer {
        Answer::New => put_word(b"new\n", out),
        Answer::Replaced => put_word(b"replaced\n", out),
        Answer::Height => put_word(b"height\n", out),
        Answer::Full => put_word(b"full\n", out),
        Answer::Value(v) => {
            let n = put_number(v, out);
            out[n] = b'\n';
            n + 1
        }
        Answer::Absent => put_word(b"absent\n", out),
        Answer::Removed => put_word(b"removed\n", out),
        Answer::End => put_word(b"end\n", out),
        Answer::Bad => put_word(b"bad\n", out),
        Answer::Key => put_word(b"key\n", out),
    }
}

// A listing's line, with its newline: the key, a space, the value.
pub fn put_entry(key: &[u8], value: u32, out: &mut [u8]) -> usize
    requires { 2 * length key.now + 13 ≤ length out.old }
    ensures { Wrote (entry_text (key.now, value)) out.old out.new result }
{
    let n = put_key(key, out);
    out[n] = b' ';
    let m = n + 1;
    let d = put_number(value, &mut out[m..]);
    let e = m + d;
    out[e] = b'\n';
    e + 1
}
