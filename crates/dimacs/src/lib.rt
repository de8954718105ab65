// The print of a job's clauses as DIMACS, and of a refusal, into a lent slice.
#![tactic(auto)]

ghost use Rattle.std.specs.Prelude.{◌≡◌};
ghost use Rattle.text.specs.Bytes.{Wrote};
ghost use Rattle.clause_set.specs.Stores.{clause_at, clauses_from};
ghost use Rattle.dimacs.specs.Dimacs.{clause, clauses, line, literal, number, print_of, refused};

mod lengths; // lengths.rt: how long a print is
mod whole; // whole.rt: a print written whole or not at all

use clause_set::{clause_part, entry, within};
use encoder_env::EncoderEnv;
use sat::Lit;
use text::Writer;
pub use whole::{print_dimacs, print_refused};

// The number that a literal's variable is printed as.
fn number(l: Lit) -> u32
    ensures { result ≡ number l.0 }
{
    let v = l.var();
    v.0 + 1
}

// A literal: the number of its variable, a minus before it if negated.
fn put_literal(w: &mut Writer, l: Lit)
    ensures { Wrote w.old (literal l.0) w.new }
{
    if l.is_negated() {
        w.put(b'-');
    }
    w.put_decimal(number(l));
}

// A clause, handed over as a part of the literal store.
pub fn put_clause(w: &mut Writer, part: &[u32])
    ensures { Wrote w.old (clause part.now) w.new }
{
    for l in part {
        put_literal(w, Lit(*l));
        w.put(b' ');
    }
    w.put_bytes(b"0\n");
}

// Clause k as the stores hold it: empty where its ends fall, cut where they pass the literal store.
fn clause_at<'a>(lits: &'a [u32], ends: &[u32], k: u32) -> &'a [u32]
    ensures { result.now ≡ clause_at lits.now ends.now k }
{
    let begin = entry(ends, k as usize);
    let end = entry(ends, k as usize + 1);
    let to = within(end as usize, lits.len());
    let from = within(begin as usize, to);
    clause_part(lits, from, to)
}

// The clauses below `count`.
fn put_clauses(w: &mut Writer, lits: &[u32], ends: &[u32], count: u32)
    ensures { Wrote w.old (clauses (clauses_from lits.now ends.now 0 count)) w.new }
{
    for k in 0..count {
        put_clause(w, clause_at(lits, ends, k));
    }
}

// A word, two numbers with a space between them, and a line feed.
fn put_line(w: &mut Writer, word: &[u8], a: u32, b: u32)
    ensures { Wrote w.old (line word.now a b) w.new }
{
    w.put_bytes(word);
    w.put_decimal(a);
    w.put(b' ');
    w.put_decimal(b);
    w.put(b'\n');
}

// The print of a job and its stores, as far as it fits.
fn put_dimacs(w: &mut Writer, env: EncoderEnv, lits: &[u32], ends: &[u32])
    ensures { Wrote w.old (print_of env lits.now ends.now) w.new }
{
    let count = env.clauses;
    put_line(w, b"p cnf ", env.variables, count);
    put_clauses(w, lits, ends, count);
}

// The line of a refusal: field index and number.
fn put_refused(w: &mut Writer, field: u32, status: u32)
    ensures { Wrote w.old (refused field status) w.new }
{
    put_line(w, b"refused ", field, status);
}
