// How many bytes the print of a job takes, and that of a refusal.
ghost use Rattle.std.specs.Prelude.{◌≡◌, length, ◌*◌, ◌+◌, ◌≤◌};
ghost use Rattle.clause_set.specs.Stores.{clauses_from};
ghost use Rattle.dimacs.specs.Dimacs.{clause, clauses, line, literal, print_of, refused};

use encoder_env::EncoderEnv;
use sat::Lit;

// A literal.
fn literal_length(l: Lit) -> usize
    ensures { (result ≡ length (literal l.0)) × (result ≤ 11) }
{
    text::decimal_length(super::number(l)) + usize::from(l.is_negated())
}

// A clause, handed over as a part of the literal store.
fn clause_length(part: &[u32]) -> usize
    requires { length part.now ≤ 16777216 }
    ensures { (result ≡ length (clause part.now)) × (result ≤ 201326594) }
{
    let mut size: usize = 2;
    for l in part {
        size += literal_length(Lit(*l)) + 1;
    }
    size
}

// The clauses below `count`.
fn clauses_length(lits: &[u32], ends: &[u32], count: u32) -> usize
    requires { length lits.now ≤ 16777216 }
    ensures { (result ≡ length (clauses (clauses_from lits.now ends.now 0 count))) × (result ≤ 201326594 * count) }
{
    let mut size: usize = 0;
    for k in 0..count {
        size += clause_length(super::clause_at(lits, ends, k));
    }
    size
}

// A word and two numbers.
fn line_length(word: &[u8], a: u32, b: u32) -> usize
    requires { length word.now ≤ 8 }
    ensures { (result ≡ length (line word.now a b)) × (result ≤ 30) }
{
    word.len() + text::decimal_length(a) + text::decimal_length(b) + 2
}

// The print of a job and its stores.
pub fn dimacs_length(env: EncoderEnv, lits: &[u32], ends: &[u32]) -> usize
    requires { length lits.now ≤ 16777216 }
    ensures { result ≡ length (print_of env lits.now ends.now) }
{
    let count = env.clauses;
    line_length(b"p cnf ", env.variables, count) + clauses_length(lits, ends, count)
}

// The line of a refusal.
pub fn refused_length(field: u32, status: u32) -> usize
    ensures { result ≡ length (refused field status) }
{
    line_length(b"refused ", field, status)
}
