// Numbers of several bytes, high byte first; signed ones as two's complement.
ghost use Rattle.std.specs.Prelude.{◌≡◌, length, take, MatchOption, ◌*◌, ◌+◌, ◌/◌, ◌<◌, ◌≤◌};
ghost use Rattle.job_fields.specs.Numbers.{signed_long, signed_word, terms as Numbers·terms, values as Numbers·values, word_at};

// Two bytes from i on.
pub fn word(s: &[u8], i: usize) -> u32
    requires { i + 1 < length s.now }
    ensures { (result ≡ word_at s.now i) × (result < 65536) }
{
    u32::from(u16::from_be_bytes([s[i], s[i + 1]]))
}

// Two bytes from i on, signed.
pub fn signed_word(s: &[u8], i: usize) -> i32
    requires { i + 1 < length s.now }
    ensures { result ≡ signed_word s.now i }
{
    i32::from(i16::from_be_bytes([s[i], s[i + 1]]))
}

// Four bytes from i on, signed.
pub fn signed_long(s: &[u8], i: usize) -> i32
    requires { i + 3 < length s.now }
    ensures { result ≡ signed_long s.now i }
{
    i32::from_be_bytes([s[i], s[i + 1], s[i + 2], s[i + 3]])
}

// The values, put into the first entries of `out`, if there is room: how many they are.
pub fn values(s: &[u8], out: &mut [i32]) -> Option<usize>
    ensures { MatchOption result (length out.old < length s.now / 2) (λ n. (n ≡ length s.now / 2) × (n ≤ length out.new) × (take n out.new ≡ Numbers·values s.now)) }
{
    if out.len() < s.len() / 2 {
        return None;
    }
    for i in 0..s.len() / 2 {
        out[i] = signed_word(s, 2 * i);
    }
    Some(s.len() / 2)
}

// The terms, put into the first entries of `out`, if there is room, setting and coefficient in turn: how many numbers they are.
pub fn terms(s: &[u8], out: &mut [i32]) -> Option<usize>
    ensures { MatchOption result (length out.old < 2 * (length s.now / 3)) (λ n. (n ≡ 2 * (length s.now / 3)) × (n ≤ length out.new) × (take n out.new ≡ Numbers·terms s.now)) }
{
    if out.len() < 2 * (s.len() / 3) {
        return None;
    }
    for i in 0..s.len() / 3 {
        out[2 * i] = i32::from(s[3 * i]);
        out[2 * i + 1] = signed_word(s, 3 * i + 1);
    }
    Some(2 * (s.len() / 3))
}
