// The fields of a job file, by their places in the input.
ghost use Rattle.std.specs.Prelude.{◌≡◌, IfErr};
ghost use Rattle.job_fields.specs.Fields.{right_length, right_place};
ghost use Rattle.job_fields.specs.Places.{field_at, place_of};

use crate::numbers;
use refusal::Refusal;

// A field: its tag, its contents, and where it ends.
#[derive(Clone, Copy)]
pub struct Field<'a> {
    pub tag: u8,
    pub contents: &'a [u8],
    pub end: usize,
}

// The field at a place, none at the end of the input: one-byte tag, two-byte length, contents.
pub fn field_at(s: &[u8], at: usize) -> Result<Option<Field<'_>>, Refusal>
    ensures place { place_of result ≡ field_at s.now at }
    ensures refused { IfErr result (λ e. e ≡ Refusal.BadField) }
{
    if s.len() <= at {
        return Ok(None);
    }
    if s.len() - at < 3 {
        return Err(Refusal::BadField);
    }
    let len = numbers::word(s, at + 1) as usize;
    if s.len() - (at + 3) < len {
        return Err(Refusal::BadField);
    }
    let end = at + 3 + len;
    Ok(Some(Field {
        tag: s[at],
        contents: &s[at + 3..end],
        end,
    }))
}

// Whether contents of n bytes are of the tag's length; an unknown tag has none.
pub fn right_length(tag: u8, n: usize) -> bool
    ensures { result ≡ right_length tag n }
{
    match tag {
        1 => n == 1,
        2 => n == 4,
        3 => n % 2 == 0,
        4 => n == 6,
        5 => {
            if n < 5 {
                return false;
            }
            n % 3 == 2
        }
        6 => n == 3,
        _ => false,
    }
}

// Whether tag 01 is first and only once.
pub fn right_place(index: u32, tag: u8) -> bool
    ensures { result ≡ right_place index tag }
{
    if index == 0 {
        return tag == 1;
    }
    tag != 1
}
