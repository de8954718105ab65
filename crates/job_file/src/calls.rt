// The call of a field, on the job and the lent stores.
ghost use Rattle.std.specs.Prelude.{true, ◌≡◌, length, ◌≤◌};
ghost use Rattle.encoder_read.specs.Calls.{open_outcome, opened};
ghost use Rattle.encoder_answer.specs.Outcome.{Answers, adds};
ghost use Rattle.job_fields.specs.Fields.{right_length};
ghost use Rattle.job_file.specs.Calls.{switches_in};
ghost use Rattle.job_file.specs.Run.{Leaves, called, state};

use encoder::{encode_linear, encode_mul};
use encoder_env::EncoderEnv;
use job_fields::numbers;
use refusal::Refusal;
use sat::Lit;

// Tag 01: switch count.
fn open(s: &[u8], lits: &mut [u32], ends: &mut [u32]) -> Result<EncoderEnv, Refusal>
    requires { length s.now ≡ 1 }
    ensures { Answers (open_outcome (switches_in s.now) lits.old ends.old) (adds (opened 0) result) lits.new ends.new }
{
    let switches = u32::from(s[0]);
    encoder::open(switches, lits, ends)
}

// Tag 02: low, high.
fn range(
    s: &[u8],
    env: EncoderEnv,
    lits: &mut [u32],
    ends: &mut [u32],
) -> Result<EncoderEnv, Refusal>
    requires { length s.now ≡ 4 }
    ensures { Answers (called (state env lits.old ends.old) 2 s.now) (adds env result) lits.new ends.new }
{
    let low = numbers::signed_word(s, 0);
    let high = numbers::signed_word(s, 2);
    encoder::encode_range(env, lits, ends, low, high)
}

// Tag 03: values. More than 64 are refused whatever they are.
fn list(
    s: &[u8],
    env: EncoderEnv,
    lits: &mut [u32],
    ends: &mut [u32],
) -> Result<EncoderEnv, Refusal>
    ensures { Answers (called (state env lits.old ends.old) 3 s.now) (adds env result) lits.new ends.new }
{
    let mut room = [0i32; 64];
    match numbers::values(s, &mut room) {
        Some(n) => encoder::encode_list(env, lits, ends, &room[..n]),
        None => encoder::encode_list(env, lits, ends, &[0; 65]),
    }
}

// Tag 04: switch literal, f, t.
fn binary(
    s: &[u8],
    env: EncoderEnv,
    lits: &mut [u32],
    ends: &mut [u32],
) -> Result<EncoderEnv, Refusal>
    requires { length s.now ≡ 6 }
    ensures { Answers (called (state env lits.old ends.old) 4 s.now) (adds env result) lits.new ends.new }
{
    let cond = numbers::word(s, 0);
    let f = numbers::signed_word(s, 2);
    let t = numbers::signed_word(s, 4);
    encoder::encode_binary(env, lits, ends, Lit(cond), f, t)
}

// Tag 05: operation, constant, terms. More than six terms are refused whatever they are.
fn linear(
    s: &[u8],
    env: EncoderEnv,
    lits: &mut [u32],
    ends: &mut [u32],
) -> Result<EncoderEnv, Refusal>
    requires { 5 ≤ length s.now }
    ensures { Answers (called (state env lits.old ends.old) 5 s.now) (adds env result) lits.new ends.new }
{
    let op = u32::from(s[0]);
    let constant = numbers::signed_long(s, 1);
    let mut room = [0i32; 12];
    match numbers::terms(&s[5..], &mut room) {
        Some(n) => encode_linear(env, lits, ends, op, constant, &room[..n]),
        None => encode_linear(env, lits, ends, op, constant, &[0; 14]),
    }
}

// Tag 06: x, y, m.
fn mul(s: &[u8], env: EncoderEnv, lits: &mut [u32], ends: &mut [u32]) -> Result<EncoderEnv, Refusal>
    requires { length s.now ≡ 3 }
    ensures { Answers (called (state env lits.old ends.old) 6 s.now) (adds env result) lits.new ends.new }
{
    let x = u32::from(s[0]);
    let y = u32::from(s[1]);
    let m = u32::from(s[2]);
    encode_mul(env, lits, ends, x, y, m)
}

// The call of a tag whose contents are of a right length.
pub fn call(
    tag: u8,
    s: &[u8],
    env: EncoderEnv,
    lits: &mut [u32],
    ends: &mut [u32],
) -> Result<EncoderEnv, Refusal>
    requires { right_length tag (length s.now) ≡ true }
    ensures { Leaves (called (state env lits.old ends.old) tag s.now) result lits.new ends.new }
{
    match tag {
        1 => open(s, lits, ends),
        2 => range(s, env, lits, ends),
        3 => list(s, env, lits, ends),
        4 => binary(s, env, lits, ends),
        5 => linear(s, env, lits, ends),
        _ => mul(s, env, lits, ends),
    }
}
