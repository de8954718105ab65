// Prints job after job as `cnf` does: standard input holds job files, each behind its length in two bytes, the high byte first.
#![tactic(auto)]

ghost use Rattle.std.specs.Prelude.{◌≤◌, length};

use std::io;

// The next `len` bytes, or those that are left: a job file. Answers whether they could be read and their text written.
fn print_next<R: io::Input + Print + Eprint>(
    rt: &R,
    len: usize,
    input: &mut [u8],
    out: &mut [u8],
) -> bool
    requires { (8193 ≤ length input.old) × (len ≤ length input.old) × (65551 ≤ length out.old) }
{
    let Ok(n) = streams::read_input(rt, &mut input[..len]) else {
        streams::cannot_read(rt);
        return false;
    };
    let size = job_print::print_job(input, n, out);
    if rt.write_all(&out[..size]).is_err() {
        streams::cannot_write(rt);
        return false;
    }
    true
}

// (No input has 2 ^ 64 job files.)
fn main(rt: HostRuntime) {
    let mut head = [0u8; 2];
    let mut input = [0u8; 65535];
    let mut out = [0u8; 65551];
    for _ in 0..u64::MAX {
        let Ok(n) = streams::read_input(&rt, &mut head) else {
            streams::cannot_read(&rt);
            return;
        };
        if n < 2 {
            return;
        }
        let len = usize::from(u16::from_be_bytes(head));
        if !print_next(&rt, len, &mut input, &mut out) {
            return;
        }
    }
}
