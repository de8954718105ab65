// The clauses written of a job: whether they can be read (#104), and whether an assignment satisfies all of them.
#![tactic(auto)]

ghost use Rattle.std.specs.Prelude.{true, ◌≡◌, length};
ghost use Rattle.clause_set.specs.Bytes.{all_hold};
ghost use Rattle.encoder_env.specs.WellFormed.{well_formed};
ghost use Rattle.encoder_clauses.specs.Readable.{clauses_readable, clauses_written, lits_below, readable};

use clause_set::evaluate_part;
use encoder_env::{EncoderEnv, well_formed};

// Whether every literal of a clause is below a limit.
fn lits_below(clause: &[u32], limit: u32) -> bool
    ensures { result ≡ lits_below limit clause.now }
{
    clause.iter().all(|l| *l < limit)
}

// Whether no end falls or passes the literal count, and every literal of a clause is below 2 × variables.
fn clauses_readable(env: EncoderEnv, lits: &[u32], ends: &[u32]) -> bool
    requires { well_formed env (length lits.now) (length ends.now) ≡ true }
    ensures { result ≡ clauses_readable env lits.now ends.now }
{
    let literals = env.literals;
    let limit = 2 * env.variables;
    if literals < ends[0] {
        return false;
    }
    for k in 0..env.clauses as usize {
        let begin = ends[k];
        let end = ends[k + 1];
        if end < begin {
            return false;
        }
        if literals < end {
            return false;
        }
        if !lits_below(&lits[begin as usize..end as usize], limit) {
            return false;
        }
    }
    true
}

// Whether the job is well formed and its clauses can be read.
pub fn readable(env: EncoderEnv, lits: &[u32], ends: &[u32]) -> bool
    ensures { result ≡ readable env lits.now ends.now }
{
    if !well_formed(env, lits.len(), ends.len()) {
        return false;
    }
    clauses_readable(env, lits, ends)
}

// Whether an assignment satisfies every clause.
pub fn satisfies(env: EncoderEnv, lits: &[u32], ends: &[u32], assignment: &[u8]) -> bool
    requires { readable env lits.now ends.now ≡ true }
    ensures { result ≡ all_hold assignment.now (clauses_written env lits.now ends.now) }
{
    for k in 0..env.clauses as usize {
        if !evaluate_part(lits, ends[k] as usize, ends[k + 1] as usize, assignment) {
            return false;
        }
    }
    true
}
