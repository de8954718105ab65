// One line of a script: what its word asks for, on the job and the lent stores.
use super::print;
use encoder::{Figures, Solution};
use encoder_env::EncoderEnv;
use lines::{Word, number_at};
use refusal::Refusal;
use std::io;

// Why a run ends before its script does.
#[derive(Drop)]
pub enum Stop {
    BadLine,
    CannotWrite(io::Error),
}

impl From<io::Error> for Stop {
    fn from(error: io::Error) -> Stop {
        Stop::CannotWrite(error)
    }
}

// `clause K`
#[inline(never)]
fn clause<R: Print>(
    rt: &R,
    nums: &[i64],
    env: &EncoderEnv,
    lits: &[u32],
    ends: &[u32],
) -> Result<(), Stop> {
    if nums.len() != 1 {
        return Err(Stop::BadLine);
    }
    let k = number_at(nums, 0).ok_or(Stop::BadLine)?;
    match encoder::clause(*env, lits, ends, k) {
        Ok(part) => {
            print::answer(rt, Ok(0), env)?;
            print::numbers(rt, b" :", part)?;
        }
        Err(refusal) => print::answer(rt, Err(refusal), env)?,
    }
    rt.write_all(b"\n")?;
    Ok(())
}

// `solution LEN BYTE..`, which reads a solver's answer, or `answer LEN BYTE..`, which prints an assignment: the call with these bytes and the
// first LEN of a lent slice, which is printed as the call left it. Each byte lent is 7 before. The value of an assignment read is 1, of a print
// its length.
fn lent<R: Print, F: FnOnce(&[u8], &mut [u8]) -> Result<i32, Refusal>>(
    rt: &R,
    nums: &[i64],
    env: &EncoderEnv,
    call: F,
) -> Result<(), Stop>
    requires { F.IsAlwaysCallable call }
{
    let mut bytes = [0u8; 65536];
    let mut slice = [7u8; 131072];
    let given = script_calls::given_of(nums, &mut bytes).ok_or(Stop::BadLine)?;
    let part = slice.get_mut(..given.len).ok_or(Stop::BadLine)?;
    let answer = call(given.bytes, part);
    print::answer(rt, answer, env)?;
    print::numbers(rt, b" :", part)?;
    rt.write_all(b"\n")?;
    Ok(())
}

// `solution LEN BYTE..`
#[inline(never)]
fn solution<R: Print>(
    rt: &R,
    nums: &[i64],
    env: &EncoderEnv,
    lits: &[u32],
    ends: &[u32],
) -> Result<(), Stop> {
    lent(rt, nums, env, |text, slice| {
        let solution = encoder::read_answer(*env, lits, ends, text, slice)?;
        Ok(i32::from(solution == Solution::Assignment))
    })
}

// `answer LEN BYTE..`
#[inline(never)]
fn print_answer<R: Print>(
    rt: &R,
    nums: &[i64],
    env: &EncoderEnv,
    lits: &[u32],
    ends: &[u32],
) -> Result<(), Stop> {
    lent(rt, nums, env, |assignment, slice| {
        let size = encoder::print_answer(*env, lits, ends, assignment, slice)?;
        Ok(i32::try_from(size).unwrap_or(i32::MAX))
    })
}

// `job ..`
#[inline(never)]
fn job(nums: &[i64], env: &mut EncoderEnv) -> Result<(), Stop> {
    if !script_state::is_job(nums) {
        return Err(Stop::BadLine);
    }
    *env = script_state::job_of(nums);
    Ok(())
}

// `lits I X`, `ends I X`
fn entry(nums: &[i64], store: &mut [u32]) -> Option<()> {
    if nums.len() != 2 {
        return None;
    }
    let i: u32 = number_at(nums, 0)?;
    let x = number_at(nums, 1)?;
    *store.get_mut(i as usize)? = x;
    Some(())
}

// `show`
#[inline(never)]
fn show<R: Print>(
    rt: &R,
    nums: &[i64],
    env: &EncoderEnv,
    lits: &[u32],
    ends: &[u32],
) -> Result<(), Stop> {
    if nums.len() != 0 {
        return Err(Stop::BadLine);
    }
    print::job(rt, env)?;
    print::numbers(rt, b"lits", lits)?;
    print::numbers(rt, b"\nends", ends)?;
    rt.write_all(b"\n")?;
    Ok(())
}

// The answer of a call is printed, with the job after it.
fn printed<R: Print>(
    rt: &R,
    answer: Option<Result<i32, Refusal>>,
    env: &EncoderEnv,
) -> Result<(), Stop> {
    print::answer(rt, answer.ok_or(Stop::BadLine)?, env)?;
    rt.write_all(b"\n")?;
    Ok(())
}

// `read SETTING BYTE..`
#[inline(never)]
fn read<R: Print>(
    rt: &R,
    nums: &[i64],
    env: &EncoderEnv,
    lits: &[u32],
    ends: &[u32],
) -> Result<(), Stop> {
    printed(rt, script_calls::read(nums, *env, lits, ends), env)
}

// The figures of a rule are printed behind a colon, 0 where it is refused.
fn sized<R: Print>(
    rt: &R,
    figures: Option<Result<Figures, Refusal>>,
    env: &EncoderEnv,
) -> Result<(), Stop> {
    let figures = figures.ok_or(Stop::BadLine)?;
    let f = encoder::counts_told(figures);
    let counts = [f.variables, f.clauses, f.literals];
    print::answer(rt, figures.map(|_| 0), env)?;
    print::numbers(rt, b" :", &counts)?;
    rt.write_all(b"\n")?;
    Ok(())
}

// `size ..`
#[inline(never)]
fn size<R: Print>(rt: &R, nums: &[i64], env: &EncoderEnv) -> Result<(), Stop> {
    sized(rt, script_calls::size(nums, *env), env)
}

// `size_mul ..`
#[inline(never)]
fn size_mul<R: Print>(rt: &R, nums: &[i64], env: &EncoderEnv) -> Result<(), Stop> {
    sized(rt, script_calls::size_mul(nums, *env), env)
}

// Every word but `stores`. What takes a job by value is a function of its own and not inlined, so that a line pays for its own word alone.
pub fn answer<R: Print>(
    rt: &R,
    word: Word,
    nums: &[i64],
    env: &mut EncoderEnv,
    lits: &mut [u32],
    ends: &mut [u32],
) -> Result<(), Stop> {
    match word.text() {
        Some(b"read") => read(rt, nums, env, lits, ends),
        Some(b"job") => job(nums, env),
        Some(b"clause") => clause(rt, nums, env, lits, ends),
        Some(b"solution") => solution(rt, nums, env, lits, ends),
        Some(b"answer") => print_answer(rt, nums, env, lits, ends),
        Some(b"size") => size(rt, nums, env),
        Some(b"size_mul") => size_mul(rt, nums, env),
        Some(b"lits") => entry(nums, lits).ok_or(Stop::BadLine),
        Some(b"ends") => entry(nums, ends).ok_or(Stop::BadLine),
        Some(b"show") => show(rt, nums, env, lits, ends),
        _ => {
            let answer = script_calls::call(word, nums, env, lits, ends);
            printed(rt, answer, env)
        }
    }
}
