// Prints the values that a solver's answer on standard input gives to the settings and switches of the job file named by the first argument.
// Where reading fails, nothing is printed.
#![tactic(auto)]

ghost use Rattle.std.specs.Prelude.{length, ◌≤◌, IfSome};

use std::env::{Env, FillError};
use std::fs::Files;
use std::{fs, io};

// One byte more than an answer may have, so that one too long is seen.
const ANSWER: usize = 1048577;

// Whether there is a first argument.
fn has_argument<R: Env>(rt: &R) -> bool {
    !matches!(rt.arg(1, &mut []), Err(FillError::NotPresent))
}

// Reads the file named by the first argument. No file is found whose name is longer than the buffer, or is not text in UTF-8, which std
// asks of a path. The file is closed at the end, so that it is not taken for standard input where that was closed.
fn read_job<R: Env + Files>(rt: &R, buf: &mut [u8]) -> Option<usize>
    ensures { IfSome result (λ n. n ≤ length buf.old) }
{
    let mut name = [0u8; 4096];
    let size = rt.arg(1, &mut name).ok()?;
    let path = str::from_utf8(&name[..size]).ok()?;
    let mut file = fs::open(rt, path).ok()?;
    streams::read_from(&mut file, buf).ok()
}

// Prints the values that standard input gives to the job file. `file` and `answer` have room for one byte more than each may have, so that one
// too long is seen.
fn run<R: Env + Files + io::Input + Print + Eprint>(rt: &R, file: &mut [u8], answer: &mut [u8])
    requires { (8193 ≤ length file.old) × (1048577 ≤ length answer.old) }
{
    let mut out = [0u8; 1440];
    let Some(n) = read_job(rt, file) else {
        let _ = rt.eprintln("cannot read the job file");
        return;
    };
    let Ok(m) = streams::read_input(rt, answer) else {
        streams::cannot_read(rt);
        return;
    };
    let Ok(size) = job_values::print_program_values(file, n, answer, m, &mut out) else {
        let _ = rt.eprintln("the answer is longer than 1048576 bytes");
        return;
    };
    if rt.write_all(&out[..size]).is_err() {
        streams::cannot_write(rt);
    }
}

// The array's type says how long it is, so that the check does not count its entries.
fn run_in_arrays<R: Env + Files + io::Input + Print + Eprint>(rt: &R, answer: &mut [u8; ANSWER]) {
    let mut file = [0u8; 8193];
    run(rt, &mut file, answer);
}

fn main(rt: HostRuntime) {
    if !has_argument(&rt) {
        let _ = rt.eprintln("usage: values FILE");
        return;
    }
    let mut answer = [0u8; ANSWER];
    run_in_arrays(&rt, &mut answer);
}
