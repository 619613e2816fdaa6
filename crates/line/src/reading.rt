// A line read: keys in hex, numbers in decimal, a letter for each command. That the buffer has room for a word's key stands in the contract of each function
// that decodes one: a lent slice has no type for its least length.
ghost use Rattle.std.specs.Prelude.{◌≡◌, ◌*◌, ◌≤◌, ◌<◌, length, MatchOption};
ghost use Rattle.line.specs.Text.{digit, pairs, key_of, number_of};
ghost use Rattle.line.specs.Line.{first_space, insert_line, short_line, line_of};
ghost use Rattle.line.specs.Code.{KeyIs, number_in, KeyReadIs, LineIs};

// The bytes of a key as they are decoded: a line of 200 bytes has no longer one.
pub const KEY_ROOM: usize = 100;

pub const LINE_LIMIT: usize = 200;

// The crate node's limit, which is written here once more: the language of the program knows no store, so that line does not stand on node.
pub const KEY_LIMIT: usize = 64;

// The value of a hex digit; none for any other byte.
pub fn digit_of(c: u8) -> Option<u8>
    ensures { MatchOption result (digit c ≡ 16) (λ d. (d ≡ digit c) × (d < 16)) }
{
    match c {
        b'0'..=b'9' => Some(c - b'0'),
        b'a'..=b'f' => Some(c - b'a' + 10),
        _ => None,
    }
}

// Pairs of hex digits, as bytes at the start of a lent buffer. The answer is how many these are.
fn decode_pairs(word: &[u8], key: &mut [u8]) -> Option<usize>
    requires { length word.now ≤ 2 * length key.old }
    ensures { KeyIs (pairs word.now) key.old key.new result }
{
    if word.len() % 2 != 0 {
        return None;
    }
    let count = word.len() / 2;
    for n in 0..count {
        key[n] = digit_of(word[2 * n])? * 16 + digit_of(word[2 * n + 1])?;
    }
    Some(count)
}

// A decoded key is so many bytes at the start of a lent buffer.
pub fn decode_key(word: &[u8], key: &mut [u8]) -> Option<usize>
    requires { length word.now ≤ 2 * length key.old }
    ensures { KeyIs (key_of word.now) key.old key.new result }
{
    match word {
        [] => None,
        [b'-'] => Some(0),
        [_] => None,
        _ => decode_pairs(word, key),
    }
}

// 1 to 10 decimal digits, up to the largest number of 32 bits.
pub fn number_of(word: &[u8]) -> Option<u32>
    ensures { number_in result ≡ number_of word.now }
{
    if word.is_empty() || 10 < word.len() {
        return None;
    }
    let mut n: u64 = 0;
    for c in word {
        let d = digit_of(*c)?;
        if 9 < d {
            return None;
        }
        n = n * 10 + u64::from(d);
    }
    u32::try_from(n).ok()
}

// The place of the first space.
pub fn first_space(s: &[u8]) -> Option<usize>
    ensures { MatchOption result (first_space s.now ≡ length s.now) (λ i. (i ≡ first_space s.now) × (i < length s.now)) }
{
    s.iter().position(|c| *c == b' ')
}

// A command that was read: a key is so many bytes at the start of the lent buffer. It is no part of the buffer, since LineIs speaks of the whole buffer after
// the call, which a part that is lent on would hide.
#[derive(Clone, Copy, Debug, PartialEq, Eq)]
pub enum Parsed {
    Insert(usize, u32),
    Get(usize),
    Delete(usize),
    Plain(usize),
    Inclusive(usize),
}

// A line that is no command is malformed, or well formed with a key that is too long.
#[derive(Clone, Copy, Debug, PartialEq, Eq)]
pub enum LineError {
    Bad,
    Key,
}

// A key and nothing more, which stands at the start of the buffer. The answer is how many bytes it has.
fn parse_key(word: &[u8], key: &mut [u8]) -> Result<usize, LineError>
    requires { length word.now ≤ 2 * length key.old }
    ensures { KeyReadIs (key_of word.now) key.old key.new result }
{
    let n = decode_key(word, key).ok_or(LineError::Bad)?;
    if KEY_LIMIT < n {
        return Err(LineError::Key);
    }
    Ok(n)
}

// A key, a space, a number.
fn parse_insert(word: &[u8], key: &mut [u8]) -> Result<Parsed, LineError>
    requires { length word.now ≤ 2 * length key.old }
    ensures { LineIs (insert_line word.now) key.old key.new result }
{
    let space = first_space(word).ok_or(LineError::Bad)?;
    let n = decode_key(&word[..space], key).ok_or(LineError::Bad)?;
    let v = number_of(&word[space + 1..]).ok_or(LineError::Bad)?;
    if KEY_LIMIT < n {
        return Err(LineError::Key);
    }
    Ok(Parsed::Insert(n, v))
}

// A line of at most 200 bytes.
pub fn parse_short(line: &[u8], key: &mut [u8]) -> Result<Parsed, LineError>
    requires { length line.now ≤ 2 * length key.old }
    ensures { LineIs (short_line line.now) key.old key.new result }
{
    let [letter, b' ', word @ ..] = line else {
        return Err(LineError::Bad);
    };
    match letter {
        b'i' => parse_insert(word, key),
        b'g' => Ok(Parsed::Get(parse_key(word, key)?)),
        b'd' => Ok(Parsed::Delete(parse_key(word, key)?)),
        b'p' => Ok(Parsed::Plain(parse_key(word, key)?)),
        b'q' => Ok(Parsed::Inclusive(parse_key(word, key)?)),
        _ => Err(LineError::Bad),
    }
}

// A line without its newline, as document 01 reads it; the key goes into the buffer, of at least KEY_ROOM bytes.
pub fn parse(line: &[u8], key: &mut [u8]) -> Result<Parsed, LineError>
    requires { 100 ≤ length key.old }
    ensures { LineIs (line_of line.now) key.old key.new result }
{
    if LINE_LIMIT < line.len() {
        return Err(LineError::Bad);
    }
    parse_short(line, key)
}
