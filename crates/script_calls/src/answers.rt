// The words of a solver's answer, each over a lent slice of LEN bytes: `solution LEN BYTE..` and `answer LEN BYTE..`.
ghost use Rattle.std.specs.Prelude.{IfSome, length, ◌≤◌};

use lines::{number_at, number_list};

// The length of the lent slice, and the bytes given.
#[derive(Clone, Copy)]
pub struct Given<'a> {
    pub len: usize,
    pub bytes: &'a [u8],
}

// `LEN BYTE..`
pub fn given_of<'a>(nums: &[i64], bytes: &'a mut [u8]) -> Option<Given<'a>>
    ensures { IfSome result (λ g. (g.len ≤ 131072) × (length g.bytes.now ≤ length bytes.old)) }
{
    let len: u32 = number_at(nums, 0)?;
    if len > 131072 {
        return None;
    }
    let n = number_list(nums.get(1..)?, bytes)?;
    Some(Given {
        len: len as usize,
        bytes: &bytes[..n],
    })
}
