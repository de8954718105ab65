// Answers each line of standard input as a script of its own (crate `script`): a line that cannot be read prints `bad line 1`, and the
// next is answered all the same. So one input tries lines of every kind.
#![tactic(auto)]

ghost use Rattle.std.specs.Prelude.{◌≤◌, length};

use script::{Part, Stop};
use std::io;

// One line, on a job and stores of all 0. One that cannot be read is no failure here.
fn run_line<R: Print>(
    rt: &R,
    line: lines::Line,
    nums: &mut [i64],
    lits: &mut [u32],
    ends: &mut [u32],
) -> io::Result<()>
    requires { (8192 ≤ length lits.old) × (4096 ≤ length ends.old) }
{
    script_state::clear(lits);
    script_state::clear(ends);
    let run = script::start().run;
    match script::finish(rt, Part { line, run }, nums, lits, ends) {
        Err(Stop::CannotWrite(error)) => Err(error),
        _ => Ok(()),
    }
}

fn run_lines<R: Print>(
    rt: &R,
    s: &[u8],
    nums: &mut [i64],
    lits: &mut [u32],
    ends: &mut [u32],
) -> io::Result<()>
    requires { (8192 ≤ length lits.old) × (4096 ≤ length ends.old) }
{
    let mut at: usize = 0;
    while at < s.len() {
        let fed = lines::feed(nums, lines::line_start(), s, at);
        run_line(rt, fed.line, nums, lits, ends)?;
        at = fed.next;
    }
    Ok(())
}

// The arrays' types say how long they are, so that the check does not count their entries.
fn run_in_arrays<R: io::Input + Print + Eprint>(
    rt: &R,
    input: &mut [u8; 524288],
    nums: &mut [i64; 65537],
    lits: &mut [u32; 524288],
    ends: &mut [u32; 131072],
) {
    streams::answer_input(rt, input, |s| run_lines(rt, s, nums, lits, ends));
}

fn main(rt: HostRuntime) {
    let mut input = [0u8; 524288];
    let mut nums = [0i64; 65537];
    let mut lits = [0u32; 524288];
    let mut ends = [0u32; 131072];
    run_in_arrays(&rt, &mut input, &mut nums, &mut lits, &mut ends);
}
