// Prints `STATUS HEIGHT` for each call of the script on standard input (crate `script` says how it is written): the number answered, and
// the greatest height of a column reached, 0 where there is none or the call is refused before 13 is tested. The words are `open`, `range`,
// `list`, `binary`, `linear`, `mul`, and `stores` with the lengths that both stores have here. Any other line ends the run.
#![tactic(auto)]

mod heights;

use encoder_env::EncoderEnv;
use lines::{Line, Word};
use refusal::Refusal;
use std::io;

// The greatest height that a sum reaches. (Not inlined, so that other lines do not pay for the room of the terms.)
#[inline(never)]
fn sum_height(nums: &[i64], env: EncoderEnv, lits: usize, ends: usize) -> Option<u32> {
    let mut terms = [0i32; 4096];
    let s = script_calls::sum_of(nums, &mut terms)?;
    let most = heights::sum_height(env, lits, ends, s.op, s.constant, s.terms);
    Some(most)
}

// The greatest height that the call of a line reaches on this job.
fn height(word: Word, nums: &[i64], env: EncoderEnv, lits: usize, ends: usize) -> u32 {
    let most = match word.text() {
        Some(b"linear") => sum_height(nums, env, lits, ends),
        Some(b"mul") => script_calls::product_of(nums).map(|p| heights::product_height(
            env, lits, ends, p.x, p.y, p.m,
        )),
        _ => None,
    };
    most.unwrap_or(0)
}

// `STATUS HEIGHT`
fn show<R: Print>(rt: &R, answer: Result<i32, Refusal>, height: u32) -> io::Result<()> {
    rt.print(script_calls::answer_told(answer).status)?;
    rt.write_all(b" ")?;
    rt.print(height)?;
    rt.write_all(b"\n")
}

// Whether these are the lengths that both stores have here.
fn are_lengths(nums: &[i64]) -> bool {
    nums == [524288, 131072].as_slice()
}

// A line with this word and these integers: the job after it, none if it cannot be read.
fn answer<R: Print>(
    rt: &R,
    word: Word,
    nums: &[i64],
    env: EncoderEnv,
    lits: &mut [u32],
    ends: &mut [u32],
) -> io::Result<Option<EncoderEnv>> {
    if word.text() == Some(b"stores".as_slice()) {
        return Ok(are_lengths(nums).then_some(env));
    }
    let most = height(word, nums, env, lits.len(), ends.len());
    let mut job = env;
    let Some(answer) = script_calls::call(word, nums, &mut job, lits, ends) else {
        return Ok(None);
    };
    show(rt, answer, most)?;
    Ok(Some(job))
}

// A line that ends here.
fn end_line<R: Print>(
    rt: &R,
    line: Line,
    nums: &mut [i64],
    env: EncoderEnv,
    lits: &mut [u32],
    ends: &mut [u32],
) -> io::Result<Option<EncoderEnv>> {
    let whole = lines::line_whole(nums, line);
    let numbers = whole.numbers;
    if !numbers.good {
        return Ok(None);
    }
    answer(rt, whole.word, &nums[..numbers.count], env, lits, ends)
}

// All lines, from the job of all 0.
fn run<R: Print>(
    rt: &R,
    s: &[u8],
    nums: &mut [i64],
    lits: &mut [u32],
    ends: &mut [u32],
) -> io::Result<()> {
    let mut env = encoder_read::opened(0);
    let mut at: usize = 0;
    while at < s.len() {
        let fed = lines::feed(nums, lines::line_start(), s, at);
        let Some(next) = end_line(rt, fed.line, nums, env, lits, ends)? else {
            return rt.write_all(b"bad line\n");
        };
        env = next;
        at = fed.next;
    }
    Ok(())
}

// The arrays' types say how long they are, so that the check does not count their entries.
fn run_in_arrays<R: io::Input + Print + Eprint>(
    rt: &R,
    input: &mut [u8; 65536],
    nums: &mut [i64; 65537],
    lits: &mut [u32; 524288],
    ends: &mut [u32; 131072],
) {
    streams::answer_input(rt, input, |s| run(rt, s, nums, lits, ends));
}

fn main(rt: HostRuntime) {
    let mut input = [0u8; 65536];
    let mut nums = [0i64; 65537];
    let mut lits = [0u32; 524288];
    let mut ends = [0u32; 131072];
    run_in_arrays(&rt, &mut input, &mut nums, &mut lits, &mut ends);
}
