// What a script may put in place of what the calls left: the job that the integers of a line say, and stores of all 0. A job's integers are
// its counts of switches, variables, clauses, literals and settings, then 32 records of 16.
#![tactic(auto)]

ghost use Rattle.std.specs.Prelude.{◌≡◌, ◌<◌, length, replicate};
ghost use Rattle.script_state.specs.Job.{fits, is_job, job_of, lits_from, record_from, records_from, signed_place};

use encoder_env::EncoderEnv;
use lines::number_at;
use log_var::LogEncoding;
use sat::Lit;

// Whether number i is one of low, high and offset.
fn is_signed_place(i: usize) -> bool
    ensures { result ≡ signed_place i }
{
    i >= 5 && (i - 5) % 16 > 12
}

// Whether number i fits the type of its place.
fn fits(nums: &[i64], i: usize) -> bool
    ensures { result ≡ fits nums.now i }
{
    if is_signed_place(i) {
        number_at::<i32>(nums, i).is_some()
    } else {
        number_at::<u32>(nums, i).is_some()
    }
}

// Whether the integers say a job.
pub fn is_job(nums: &[i64]) -> bool
    ensures { result ≡ is_job nums.now }
{
    if nums.len() != 517 {
        return false;
    }
    for i in 0..517 {
        if !fits(nums, i) {
            return false;
        }
    }
    true
}

// The 12 literals that start at `at`. A number that does not fit is 0, here and below.
// `array::from_fn` was tried: its clause does not say that the closure keeps what it captured, and the proof did not close.
fn lits_at(nums: &[i64], at: usize) -> [Lit; 12]
    requires { at < 1000 }
    ensures { result ≡ lits_from nums.now at }
{
    let mut lits = [Lit(0); 12];
    for i in 0..12 {
        lits[i] = Lit(number_at(nums, at + i).unwrap_or(0));
    }
    lits
}

// The record that starts at `at`.
fn record_at(nums: &[i64], at: usize) -> LogEncoding
    requires { at < 1000 }
    ensures { result ≡ record_from nums.now at }
{
    LogEncoding {
        lits: lits_at(nums, at),
        len: number_at(nums, at + 12).unwrap_or(0),
        low: number_at(nums, at + 13).unwrap_or(0),
        high: number_at(nums, at + 14).unwrap_or(0),
        offset: number_at(nums, at + 15).unwrap_or(0),
    }
}

// The 32 records.
fn records(nums: &[i64]) -> [LogEncoding; 32]
    ensures { result ≡ records_from nums.now }
{
    let mut encodings = [record_at(nums, 5); 32];
    for i in 0..32 {
        encodings[i] = record_at(nums, 5 + 16 * i);
    }
    encodings
}

// The job that they say.
pub fn job_of(nums: &[i64]) -> EncoderEnv
    ensures { result ≡ job_of nums.now }
{
    EncoderEnv {
        switches: number_at(nums, 0).unwrap_or(0),
        variables: number_at(nums, 1).unwrap_or(0),
        clauses: number_at(nums, 2).unwrap_or(0),
        literals: number_at(nums, 3).unwrap_or(0),
        count: number_at(nums, 4).unwrap_or(0),
        encodings: records(nums),
    }
}

// Every entry is 0.
pub fn clear(store: &mut [u32])
    ensures { store.new ≡ replicate (length store.old) 0 }
{
    store.fill(0);
}
