// What the public calls answer, and what those that add have in common: the checks of space, the writing and the job after it.
#![tactic(auto)]

ghost use Rattle.std.specs.Prelude.{◌≡◌, ◌^◌, ◌<◌};
ghost use Rattle.refusal.specs.Number.{status};
ghost use Rattle.encoder_answer.specs.Outcome.{Answers, adds, status_of};
ghost use Rattle.encoder_answer.specs.Adding.{counts_of, job_with, space_checks, with_record};
ghost use Rattle.encoder_answer.specs.Call.{CallWrote, Fits, JobAddition, JobChecks, JobSet, Passed, Settles, StoresWrote, call_outcome, job_after};

use clause_set::{ClauseSet, Counts};
use encoder_env::EncoderEnv;
use log_var::LogEncoding;
use refusal::Refusal;

// The clauses and literals in use.
pub fn counts_of(env: EncoderEnv) -> Counts
    ensures { result ≡ counts_of env }
{
    Counts {
        clauses: env.clauses as usize,
        lits: env.literals as usize,
    }
}

// Whether the variables and the stores have room for what a call adds, by the counts after it.
pub fn space_checks(vars: u32, used: Counts, lits: usize, ends: usize) -> Result<(), Refusal>
    ensures { status result ≡ status_of (space_checks vars used.lits used.clauses lits ends) }
{
    if 65535 < vars {
        return Err(Refusal::TooManyVariables);
    }
    if lits < used.lits {
        return Err(Refusal::NoSpace);
    }
    if ends <= used.clauses {
        return Err(Refusal::NoSpace);
    }
    Ok(())
}

// The job with the counts after a call that adds.
pub fn grown(env: EncoderEnv, vars: u32, used: Counts) -> EncoderEnv
    requires { (used.clauses < 2 ^ 32) × (used.lits < 2 ^ 32) }
    ensures { result ≡ job_with env vars used }
{
    let mut job = env;
    job.variables = vars;
    job.clauses = used.clauses as u32;
    job.literals = used.lits as u32;
    job
}

// The job with a new setting's record behind those in use.
pub fn with_record(env: EncoderEnv, e: LogEncoding) -> EncoderEnv
    requires { env.count < 32 }
    ensures { result ≡ with_record env e }
{
    let at = env.count as usize;
    let mut job = env;
    let mut encodings = env.encodings;
    encodings[at] = e;
    job.encodings = encodings;
    job.count = env.count + 1;
    job
}

// What a call wrote: the counts of variables and of the stores after it, and the record of a new setting.
#[derive(Clone, Copy)]
struct Written {
    vars: u32,
    used: Counts,
    setting: Option<LogEncoding>,
}

// The job after what a call wrote.
fn job_after(env: EncoderEnv, new: Written) -> EncoderEnv
    requires { Fits env new }
    ensures { result ≡ job_after env new }
{
    let job = grown(env, new.vars, new.used);
    match new.setting {
        Some(e) => with_record(job, e),
        None => job,
    }
}

// A call that adds: its checks but those of space, and what it writes behind the counts in use.
pub trait AddingCall {
    ghost asks: { Self → JobChecks };

    ghost gives: { Self → JobAddition };

    fn check(&self, env: EncoderEnv, lits: usize, ends: usize) -> Result<(), Refusal>
        ensures number { status result ≡ status_of (asks self.now env lits ends) }
        ensures settles { Settles env lits ends (asks self.now env lits ends) (gives self.now env) };

    // The clauses, into a set of the job's stores, and the record of a new setting.
    fn write(&self, env: EncoderEnv, set: &mut ClauseSet<'_>) -> Option<LogEncoding>
        requires job { JobSet env set.old }
        requires passed { Passed (asks self.now env) }
        ensures { CallWrote (gives self.now env) set.old result set.new };
}

// What a call writes into stores behind the counts in use: past a store's end it is only counted.
fn write_into<A: AddingCall>(
    call: &A,
    env: EncoderEnv,
    lits: &mut [u32],
    ends: &mut [u32],
) -> Written
    requires { Passed (A.asks call.now env) }
    ensures { StoresWrote env (A.gives call.now env) lits.old ends.old result lits.new ends.new }
{
    let mut set = ClauseSet {
        lits,
        ends,
        base: 0,
        vars: env.variables,
        used: counts_of(env),
    };
    let setting = call.write(env, &mut set);
    Written {
        vars: set.vars,
        used: set.used,
        setting,
    }
}

// Makes a call: where its checks hold, what it takes is counted with nothing lent, and it is written where that has space.
pub fn add<A: AddingCall>(
    call: &A,
    env: EncoderEnv,
    lits: &mut [u32],
    ends: &mut [u32],
) -> Result<EncoderEnv, Refusal>
    ensures { Answers (call_outcome (A.asks call.now) (A.gives call.now) env lits.old ends.old) (adds env result) lits.new ends.new }
{
    call.check(env, lits.len(), ends.len())?;
    let mut no_lits = [0u32; 0];
    let mut no_ends = [0u32; 0];
    let size = write_into(call, env, &mut no_lits, &mut no_ends);
    space_checks(size.vars, size.used, lits.len(), ends.len())?;
    let new = write_into(call, env, lits, ends);
    Ok(job_after(env, new))
}
