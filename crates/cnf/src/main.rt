// Prints the clauses of the job file on standard input as DIMACS, or `refused F N`. Where reading fails, nothing is printed.
#![tactic(auto)]

ghost use Rattle.std.specs.Prelude.{◌≤◌, length};

use std::io;

// The input has room for one byte more than a job file may have, so that one too long is seen.
fn run<R: io::Input + Print + Eprint>(rt: &R, input: &mut [u8], out: &mut [u8])
    requires { (8193 ≤ length input.old) × (65551 ≤ length out.old) }
{
    let Ok(n) = streams::read_input(rt, input) else {
        streams::cannot_read(rt);
        return;
    };
    let size = job_print::print_job(input, n, out);
    if rt.write_all(&out[..size]).is_err() {
        streams::cannot_write(rt);
    }
}

fn main(rt: HostRuntime) {
    let mut input = [0u8; 8193];
    let mut out = [0u8; 65551];
    run(&rt, &mut input, &mut out);
}
