// A line of a script as a call of the encoder, on the job and the lent stores. Nothing is printed. Each function answers None where the line
// cannot be read. Those of words that have arrays of their own or copy the job are not inlined, so that a line pays for its own word alone.
#![tactic(auto)]

mod answers;
mod figures;
mod rules;

ghost use Rattle.std.specs.Prelude.{◌≡◌, IfSome, OnErr};
ghost use Rattle.encoder_env.specs.declared.EncoderEnv.{EncoderEnv};
ghost use Rattle.encoder_answer.specs.Outcome.{Answers, adds, reads};
ghost use Rattle.encoder_read.specs.Calls.{open_outcome};

pub use answers::{Given, given_of};
use encoder::{encode_linear, encode_mul};
use encoder_env::EncoderEnv;
pub use figures::{size, size_mul};
use lines::{Word, number_at, number_list};
use refusal::Refusal;
pub use rules::{Product, Sum, product_of, sum_of};
use sat::Lit;

// The number and the value that an answer is told by.
#[derive(Clone, Copy)]
pub struct Told {
    pub status: u32,
    pub value: i32,
}

// How an answer is told, whatever the job: a refusal by its number and the value 0.
pub fn answer_told(answer: Result<i32, Refusal>) -> Told
    ensures { (env : EncoderEnv) → reads env answer ≡ record { status = result.status; env = env; value = result.value } }
{
    match answer {
        Ok(value) => Told { status: 0, value },
        Err(refusal) => Told {
            status: refusal.number(),
            value: 0,
        },
    }
}

// A call that leaves a job: refused, it leaves the one given.
fn left(env: &mut EncoderEnv, job: Result<EncoderEnv, Refusal>) -> Result<i32, Refusal>
    ensures answer { reads env.new result ≡ adds env.old job }
    ensures refused { OnErr result (env.new ≡ env.old) }
{
    *env = job?;
    Ok(0)
}

// The call of `open`: refused, it leaves the job of all 0.
fn open_call(
    switches: u32,
    env: &mut EncoderEnv,
    lits: &mut [u32],
    ends: &mut [u32],
) -> Result<i32, Refusal>
    ensures { Answers (open_outcome switches lits.old ends.old) (reads env.new result) lits.new ends.new }
{
    let job = encoder::open(switches, lits, ends);
    *env = encoder_read::opened(0);
    left(env, job)
}

// `open N`
#[inline(never)]
fn open(
    nums: &[i64],
    env: &mut EncoderEnv,
    lits: &mut [u32],
    ends: &mut [u32],
) -> Option<Result<i32, Refusal>> {
    if nums.len() != 1 {
        return None;
    }
    Some(open_call(number_at(nums, 0)?, env, lits, ends))
}

// `range LOW HIGH`
#[inline(never)]
fn range(
    nums: &[i64],
    env: &mut EncoderEnv,
    lits: &mut [u32],
    ends: &mut [u32],
) -> Option<Result<i32, Refusal>>
    ensures { IfSome result (λ r. OnErr r (env.new ≡ env.old)) }
{
    if nums.len() != 2 {
        return None;
    }
    let low = number_at(nums, 0)?;
    let high = number_at(nums, 1)?;
    let job = encoder::encode_range(*env, lits, ends, low, high);
    Some(left(env, job))
}

// `list V..`
#[inline(never)]
fn list(
    nums: &[i64],
    env: &mut EncoderEnv,
    lits: &mut [u32],
    ends: &mut [u32],
) -> Option<Result<i32, Refusal>>
    ensures { IfSome result (λ r. OnErr r (env.new ≡ env.old)) }
{
    let mut values = [0i32; 4096];
    let n = number_list(nums, &mut values)?;
    let job = encoder::encode_list(*env, lits, ends, &values[..n]);
    Some(left(env, job))
}

// `binary C F T`
#[inline(never)]
fn binary(
    nums: &[i64],
    env: &mut EncoderEnv,
    lits: &mut [u32],
    ends: &mut [u32],
) -> Option<Result<i32, Refusal>>
    ensures { IfSome result (λ r. OnErr r (env.new ≡ env.old)) }
{
    if nums.len() != 3 {
        return None;
    }
    let c = Lit(number_at(nums, 0)?);
    let f = number_at(nums, 1)?;
    let t = number_at(nums, 2)?;
    let job = encoder::encode_binary(*env, lits, ends, c, f, t);
    Some(left(env, job))
}

// `linear OP CONSTANT [SETTING COEFFICIENT]..`
#[inline(never)]
fn linear(
    nums: &[i64],
    env: &mut EncoderEnv,
    lits: &mut [u32],
    ends: &mut [u32],
) -> Option<Result<i32, Refusal>>
    ensures { IfSome result (λ r. OnErr r (env.new ≡ env.old)) }
{
    let mut terms = [0i32; 4096];
    let s = sum_of(nums, &mut terms)?;
    let job = encode_linear(*env, lits, ends, s.op, s.constant, s.terms);
    Some(left(env, job))
}

// `mul X Y M`
#[inline(never)]
fn mul(
    nums: &[i64],
    env: &mut EncoderEnv,
    lits: &mut [u32],
    ends: &mut [u32],
) -> Option<Result<i32, Refusal>>
    ensures { IfSome result (λ r. OnErr r (env.new ≡ env.old)) }
{
    let p = product_of(nums)?;
    let job = encode_mul(*env, lits, ends, p.x, p.y, p.m);
    Some(left(env, job))
}

// `read SETTING BYTE..`
#[inline(never)]
pub fn read(
    nums: &[i64],
    env: EncoderEnv,
    lits: &[u32],
    ends: &[u32],
) -> Option<Result<i32, Refusal>> {
    let mut bytes = [0u8; 65536];
    let x = number_at(nums, 0)?;
    let n = number_list(&nums[1..], &mut bytes)?;
    Some(encoder::get_int_value(env, lits, ends, x, &bytes[..n]))
}

// A word that opens a job, or adds a setting or a rule: what it answers, and the job after it.
pub fn call(
    word: Word,
    nums: &[i64],
    env: &mut EncoderEnv,
    lits: &mut [u32],
    ends: &mut [u32],
) -> Option<Result<i32, Refusal>> {
    match word.text()? {
        b"open" => open(nums, env, lits, ends),
        b"range" => range(nums, env, lits, ends),
        b"list" => list(nums, env, lits, ends),
        b"binary" => binary(nums, env, lits, ends),
        b"linear" => linear(nums, env, lits, ends),
        b"mul" => mul(nums, env, lits, ends),
        _ => None,
    }
}
