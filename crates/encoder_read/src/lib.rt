// The opening of a job, the reading of a setting and the handing back of a clause.
#![tactic(auto)]

ghost use Rattle.std.specs.Prelude.{true, ◌≡◌, ◌+◌, IfOk, get_or};
ghost use Rattle.refusal.specs.Number.{status};
ghost use Rattle.encoder_answer.specs.Outcome.{Answers, adds, reads, status_of};
ghost use Rattle.encoder_clauses.specs.Readable.{readable};
ghost use Rattle.encoder_read.specs.Calls.{bytes_checks, clause_checks, clause_outcome, is_assignment, open_checks, open_outcome, opened, read_checks, read_outcome, test_status};

use clause_set::entry;
use encoder_clauses::{readable, satisfies};
use encoder_env::{EncoderEnv, stores_within, well_formed};
use log_var::LogEncoding;
use refusal::Refusal;
use sat::Lit;

// A job with that many switches and nothing else.
pub fn opened(switches: u32) -> EncoderEnv
    ensures { result ≡ opened switches }
{
    let none = LogEncoding {
        lits: [Lit(0); 12],
        len: 0,
        low: 0,
        high: 0,
        offset: 0,
    };
    EncoderEnv {
        switches,
        variables: switches,
        clauses: 0,
        literals: 0,
        count: 0,
        encodings: [none; 32],
    }
}

// The checks of an opening.
fn open_checks(switches: u32, lits: usize, ends: usize) -> Result<(), Refusal>
    ensures { status result ≡ status_of (open_checks switches lits ends) }
{
    if 64 < switches {
        return Err(Refusal::TooManySwitches);
    }
    if !stores_within(lits, ends) {
        return Err(Refusal::IllFormed);
    }
    if ends < 1 {
        return Err(Refusal::NoSpace);
    }
    Ok(())
}

// Opens a job with that many switches, which are its first variables.
pub fn open(switches: u32, lits: &mut [u32], ends: &mut [u32]) -> Result<EncoderEnv, Refusal>
    ensures { Answers (open_outcome switches lits.old ends.old) (adds (opened 0) result) lits.new ends.new }
{
    open_checks(switches, lits.len(), ends.len())?;
    clause_set::put(ends, 0, 0);
    Ok(opened(switches))
}

// The first check of every call but `open`, then those of the clause's number and ends. Answers where the clause begins and ends.
fn clause_checks(
    env: EncoderEnv,
    lits: usize,
    ends: &[u32],
    k: u32,
) -> Result<(usize, usize), Refusal>
    ensures number { status result ≡ status_of (clause_checks env lits ends.now k) }
    ensures places { IfOk result (λ p. (p.0 ≡ get_or ends.now k 0) × (p.1 ≡ get_or ends.now (k + 1) 0)) }
{
    if !well_formed(env, lits, ends.len()) {
        return Err(Refusal::IllFormed);
    }
    if k >= env.clauses {
        return Err(Refusal::UnknownClause);
    }
    let begin = entry(ends, k as usize);
    let end = entry(ends, k as usize + 1);
    if begin > end {
        return Err(Refusal::IllFormed);
    }
    if end > env.literals {
        return Err(Refusal::IllFormed);
    }
    Ok((begin as usize, end as usize))
}

// Hands back clause k, a part of the literal store.
pub fn clause<'a>(
    env: EncoderEnv,
    lits: &'a [u32],
    ends: &[u32],
    k: u32,
) -> Result<&'a [u32], Refusal>
    ensures number { status result ≡ (clause_outcome env lits.now ends.now k).status }
    ensures part { IfOk result (λ c. c.now ≡ (clause_outcome env lits.now ends.now k).part) }
{
    let (begin, end) = clause_checks(env, lits.len(), ends, k)?;
    Ok(&lits[begin..end])
}

// Whether the bytes are an assignment of that many variables: as many, each 0 or 1.
pub fn is_assignment(variables: u32, assignment: &[u8]) -> bool
    ensures { result ≡ is_assignment variables assignment.now }
{
    assignment.len() == variables as usize && assignment.iter().all(|b| *b <= 1)
}

// The checks of an assignment, where the clauses can be read.
fn bytes_checks(
    env: EncoderEnv,
    lits: &[u32],
    ends: &[u32],
    assignment: &[u8],
) -> Result<(), Refusal>
    requires { readable env lits.now ends.now ≡ true }
    ensures { status result ≡ status_of (bytes_checks env lits.now ends.now assignment.now) }
{
    if !is_assignment(env.variables, assignment) {
        return Err(Refusal::NoAssignment);
    }
    if !satisfies(env, lits, ends, assignment) {
        return Err(Refusal::Unsatisfied);
    }
    Ok(())
}

// The checks of a reading.
fn read_checks(
    env: EncoderEnv,
    lits: &[u32],
    ends: &[u32],
    x: u32,
    assignment: &[u8],
) -> Result<(), Refusal>
    ensures { status result ≡ status_of (read_checks env lits.now ends.now x assignment.now) }
{
    if !readable(env, lits, ends) {
        return Err(Refusal::IllFormed);
    }
    if x >= env.count {
        return Err(Refusal::UnknownSetting);
    }
    bytes_checks(env, lits, ends, assignment)
}

// Tests an assignment for many readings: whether it satisfies every clause.
pub fn test_assignment(
    env: EncoderEnv,
    lits: &[u32],
    ends: &[u32],
    assignment: &[u8],
) -> Result<(), Refusal>
    ensures { status result ≡ test_status env lits.now ends.now assignment.now }
{
    if !readable(env, lits, ends) {
        return Err(Refusal::IllFormed);
    }
    bytes_checks(env, lits, ends, assignment)
}

// The value of setting x under an assignment that was tested. It answers what `get_int_value` does and reads no clause; the stores are
// those of the test.
pub fn read_tested(
    env: EncoderEnv,
    lits: &[u32],
    ends: &[u32],
    x: u32,
    assignment: &[u8],
) -> Result<i32, Refusal>
    requires { test_status env lits.now ends.now assignment.now ≡ 0 }
    ensures { Answers (read_outcome env lits.now ends.now x assignment.now) (reads env result) lits.now ends.now }
{
    if env.count <= x {
        return Err(Refusal::UnknownSetting);
    }
    Ok(log_var::get_int_value(env.encodings[x as usize], assignment))
}

// The value of setting x under an assignment that satisfies every clause.
pub fn get_int_value(
    env: EncoderEnv,
    lits: &[u32],
    ends: &[u32],
    x: u32,
    assignment: &[u8],
) -> Result<i32, Refusal>
    ensures { Answers (read_outcome env lits.now ends.now x assignment.now) (reads env result) lits.now ends.now }
{
    read_checks(env, lits, ends, x, assignment)?;
    read_tested(env, lits, ends, x, assignment)
}
