// A reader of scripts that is handed its bytes in parts of any length. A line is a word and decimal integers, each behind one space.
#![tactic(auto)]

mod fitting;

ghost use Rattle.std.specs.Prelude.{◌≡◌, true, false, ◌≤◌, ◌<◌, length, MatchOption};
ghost use Rattle.lines.specs.Integers.{is_digit};
ghost use Rattle.lines.specs.Numerals.{grown, numeral_more, numeral_integer};
ghost use Rattle.lines.specs.Lines.{FedBy, Within, is_empty, is_word, line_more, line_start, line_whole, lined, number_more, number_whole, numbered, word_more};

pub use fitting::{number_at, number_list};

// What the bytes of a token say so far.
#[derive(Clone, Copy)]
pub enum Numeral {
    Empty,
    // a minus alone
    Minus,
    // digits, and what they say, 4294967296 where they say more
    Positive(u64),
    // the same behind a minus
    Negative(u64),
    // no integer
    Other,
}

// Whether b is a digit in ASCII.
pub fn is_digit(b: u8) -> bool
    ensures { result ≡ is_digit b }
{
    b.is_ascii_digit()
}

// What digits that say v say with one more digit behind them, at most 4294967296.
fn grown(v: u64, b: u8) -> u64
    requires { is_digit b ≡ true }
    ensures { result ≡ grown v b }
{
    let x = v.saturating_mul(10).saturating_add(u64::from(b - b'0'));
    x.min(4294967296)
}

// A token with a digit behind it.
fn with_digit(n: Numeral, b: u8) -> Numeral
    requires { is_digit b ≡ true }
    ensures { result ≡ numeral_more n b }
{
    match n {
        Numeral::Empty => Numeral::Positive(grown(0, b)),
        Numeral::Minus => Numeral::Negative(grown(0, b)),
        Numeral::Positive(v) => Numeral::Positive(grown(v, b)),
        Numeral::Negative(v) => Numeral::Negative(grown(v, b)),
        Numeral::Other => Numeral::Other,
    }
}

// A token with a minus behind it.
fn with_minus(n: Numeral) -> Numeral
    ensures { result ≡ numeral_more n 45 }
{
    match n {
        Numeral::Empty => Numeral::Minus,
        _ => Numeral::Other,
    }
}

// A token with a byte behind it.
fn numeral_more(n: Numeral, b: u8) -> Numeral
    ensures { result ≡ numeral_more n b }
{
    if is_digit(b) {
        return with_digit(n, b);
    }
    if b == b'-' {
        return with_minus(n);
    }
    Numeral::Other
}

// The integer that a token is, if it is one from -2147483648 to 4294967295.
fn numeral_integer(n: Numeral) -> Option<i64>
    ensures { result ≡ numeral_integer n }
{
    match n {
        Numeral::Positive(v) if v <= 4294967295 => Some(v as i64),
        Numeral::Negative(v) if v <= 2147483648 => Some(-(v as i64)),
        Numeral::Positive(_) | Numeral::Negative(_) => None,
        Numeral::Empty | Numeral::Minus | Numeral::Other => None,
    }
}

// The bytes of a line's word. Of more than 8 the first 8 are kept, and the length is 9.
#[derive(Clone, Copy)]
pub struct Word {
    pub bytes: [u8; 8],
    pub len: usize,
}

fn word_more(w: Word, b: u8) -> Word
    ensures { result ≡ word_more w b }
{
    let mut bytes = w.bytes;
    let len = w.len;
    if len < 8 {
        bytes[len] = b;
        return Word {
            bytes,
            len: len + 1,
        };
    }
    Word { bytes, len: 9 }
}

impl Word {
    // Its bytes, if they are at most 8.
    pub fn text(&self) -> Option<&[u8]>
        ensures { MatchOption result (8 < self.now.len) (λ bytes. is_word self.now bytes.now ≡ true) }
    {
        self.bytes.get(..self.len)
    }
}

// How many integers of a line are kept, whether all could be read and kept, and the token that follows them.
#[derive(Clone, Copy)]
pub struct Numbers {
    pub count: usize,
    pub good: bool,
    pub numeral: Numeral,
}

// The token ends: its integer is kept.
fn number_whole(nums: &mut [i64], n: Numbers) -> Numbers
    ensures { numbered nums.new result ≡ number_whole (numbered nums.old n) }
{
    let at = n.count;
    match numeral_integer(n.numeral) {
        Some(z) if at < nums.len() => {
            nums[at] = z;
            Numbers {
                count: at + 1,
                good: n.good,
                numeral: Numeral::Empty,
            }
        }
        _ => Numbers { good: false, ..n },
    }
}

// One byte more behind a line's word.
fn number_more(nums: &mut [i64], n: Numbers, b: u8) -> Numbers
    ensures { numbered nums.new result ≡ number_more (numbered nums.old n) b }
{
    if b == b' ' {
        return number_whole(nums, n);
    }
    Numbers {
        numeral: numeral_more(n.numeral, b),
        ..n
    }
}

// A line so far.
#[derive(Clone, Copy)]
pub struct Line {
    pub word: Word,
    // whether a space stands behind the word
    pub behind: bool,
    pub numbers: Numbers,
}

// A line with no byte.
pub fn line_start() -> Line
    ensures { result ≡ line_start }
{
    let word = Word {
        bytes: [0u8; 8],
        len: 0,
    };
    let numbers = Numbers {
        count: 0,
        good: true,
        numeral: Numeral::Empty,
    };
    Line {
        word,
        behind: false,
        numbers,
    }
}

// Whether a line has no byte.
pub fn is_empty(line: Line) -> bool
    ensures { result ≡ is_empty line }
{
    !line.behind && line.word.len == 0
}

// A line with a byte behind it.
pub fn line_more(nums: &mut [i64], line: Line, b: u8) -> Line
    ensures { lined nums.new result ≡ line_more (lined nums.old line) b }
{
    if line.behind {
        return Line {
            numbers: number_more(nums, line.numbers, b),
            ..line
        };
    }
    if b == b' ' {
        return Line {
            behind: true,
            ..line
        };
    }
    Line {
        word: word_more(line.word, b),
        ..line
    }
}

// The line ends: its last integer is kept. With no space behind its word it has none.
pub fn line_whole(nums: &mut [i64], line: Line) -> Line
    ensures is { lined nums.new result ≡ line_whole (lined nums.old line) }
    ensures within { Within (lined nums.new result) }
{
    let numbers = if line.behind {
        number_whole(nums, line.numbers)
    } else {
        Numbers {
            count: 0,
            ..line.numbers
        }
    };
    Line { numbers, ..line }
}

// A line so far.
#[derive(Clone, Copy)]
pub struct Fed {
    pub line: Line,
    // the place of the line feed that ends it, or of the end of the bytes at hand
    pub at: usize,
    // the place behind the line feed, or the end again
    pub next: usize,
}

// A line with the bytes of `s` from `from` on, up to a line feed or the end.
pub fn feed(nums: &mut [i64], line: Line, s: &[u8], from: usize) -> Fed
    requires { from ≤ length s.now }
    ensures { FedBy s.now from result.at result.next (lined nums.old line) (lined nums.new result.line) }
{
    let mut line = line;
    for i in from..s.len() {
        if s[i] == b'\n' {
            return Fed {
                line,
                at: i,
                next: i + 1,
            };
        }
        line = line_more(nums, line, s[i]);
    }
    Fed {
        line,
        at: s.len(),
        next: s.len(),
    }
}
