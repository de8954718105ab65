// Answers the script of calls on standard input (crate `script` says how), from a job and stores of all 0.
#![tactic(auto)]

ghost use Rattle.std.specs.Prelude.{◌≤◌, length};

use script::Stop;
use std::io;

// Reads and answers until the input ends, a line cannot be read, or reading or writing fails. (No input has 2 ^ 64 times 65,536 bytes.)
fn run<R: io::Input + Print + Eprint>(
    rt: &R,
    input: &mut [u8],
    nums: &mut [i64],
    lits: &mut [u32],
    ends: &mut [u32],
) -> Result<(), Stop>
    requires { (8192 ≤ length lits.old) × (4096 ≤ length ends.old) }
{
    let mut part = script::start();
    for _ in 0..u64::MAX {
        let Ok(n) = streams::read_input(rt, input) else {
            streams::cannot_read(rt);
            return Ok(());
        };
        part = script::run_part(rt, &input[..n], part, nums, lits, ends)?;
        if n < input.len() {
            return script::finish(rt, part, nums, lits, ends);
        }
    }
    Ok(())
}

// The arrays' types say how long they are, so that the check does not count their entries.
fn run_in_arrays<R: io::Input + Print + Eprint>(
    rt: &R,
    input: &mut [u8; 65536],
    nums: &mut [i64; 65537],
    lits: &mut [u32; 524288],
    ends: &mut [u32; 131072],
) {
    if let Err(Stop::CannotWrite(_)) = run(rt, input, nums, lits, ends) {
        streams::cannot_write(rt);
    }
}

fn main(rt: HostRuntime) {
    let mut input = [0u8; 65536];
    let mut nums = [0i64; 65537];
    let mut lits = [0u32; 524288];
    let mut ends = [0u32; 131072];
    run_in_arrays(&rt, &mut input, &mut nums, &mut lits, &mut ends);
}
