// The lines of a solver's answer in code: what a line is, and the numbers behind a `v`. Nothing is kept.
#![tactic(auto)]

ghost use Rattle.std.specs.Prelude.{◌≡◌};
ghost use Rattle.solver_lines.specs.Scans.{number_read, positive_read};
ghost use Rattle.solver_lines.specs.Lines.{line_read, worded};

// A line: a comment, the `s` line, satisfiable or not, a `v` line with what stands behind its first space, or any other.
#[derive(Clone, Copy)]
pub enum Line<'a> {
    Comment,
    Verdict(bool),
    Values(&'a [u8]),
    Broken,
}

// A number of a `v` line, at most 65536.
#[derive(Clone, Copy)]
pub struct Number {
    pub negative: bool,
    pub size: u32,
}

// What a line is, its numbers unread.
pub fn line_of(l: &[u8]) -> Line<'_>
    ensures { line_read result ≡ worded l.now }
{
    if l == b"s SATISFIABLE".as_slice() {
        return Line::Verdict(true);
    }
    if l == b"s UNSATISFIABLE".as_slice() {
        return Line::Verdict(false);
    }
    if let Some(numbers) = l.strip_prefix(b"v ") {
        return Line::Values(numbers);
    }
    if l == b"c".as_slice() || l.starts_with(b"c ") {
        return Line::Comment;
    }
    Line::Broken
}

// The value of digits, one at least and the first not 0; one above 65536 counts as 65536.
fn positive(digits: &[u8]) -> Option<u32>
    ensures { result ≡ positive_read digits.now }
{
    if digits.is_empty() || digits[0] == b'0' {
        return None;
    }
    let mut size: u32 = 0;
    for b in digits {
        if !b.is_ascii_digit() {
            return None;
        }
        size = (10 * size + u32::from(*b - b'0')).min(65536);
    }
    Some(size)
}

// The number that a piece of a `v` line is.
pub fn number_of(piece: &[u8]) -> Option<Number>
    ensures { result ≡ number_read piece.now }
{
    if piece == b"0".as_slice() {
        return Some(Number {
            negative: false,
            size: 0,
        });
    }
    if let Some(digits) = piece.strip_prefix(b"-") {
        let size = positive(digits)?;
        return Some(Number {
            negative: true,
            size,
        });
    }
    let size = positive(piece)?;
    Some(Number {
        negative: false,
        size,
    })
}
