// The comparison of two sums' bits, after `encode_linear_log_from_encodings` of log.rs. A call that is lent no entries only counts.
#![tactic(auto)]

ghost use Rattle.std.specs.Prelude.{◌≡◌, [], ◌+◌, ◌-◌, ◌^◌, ◌≤◌, ◌<◌, drop, length, map};
ghost use Rattle.sat.specs.LitArray.{num};
ghost use Rattle.clause_set.specs.Stores.{Added, AddedRule, Below};
ghost use Rattle.log_encoding.specs.Compare.{first_gate, ne_bits, none_of, sub_gate, xor_gate};
ghost use Rattle.log_encoding.specs.Linear.{comparison, ge_bits};
ghost use Rattle.log_linear.specs.Added.{bits_of};
ghost use Rattle.log_linear.specs.SubLit.{ge_end, ge_gate, sub_lits, sub_of};

use clause_set::{Clause, ClauseSet, Counts};
use sat::Lit;

// The literals of a sum's bits, the lowest first, and how many.
#[derive(Clone, Copy)]
pub struct Bits {
    pub lits: [Lit; 32],
    pub len: usize,
}

impl Bits {
    pub fn as_slice(&self) -> &[Lit]
        requires { self.now.len ≤ 32 }
        ensures { (map num result.now ≡ bits_of self.now) × (length result.now ≡ self.now.len) }
    {
        &self.lits[..self.len]
    }

    // Those from place k on.
    pub fn rest(&self, k: usize) -> &[Lit]
        requires { self.now.len ≤ 32 }
        ensures { (map num result.now ≡ drop k (bits_of self.now)) × (length result.now ≤ 32) }
    {
        &self.as_slice()[k.min(self.len)..]
    }
}

// The counts of variables and of the stores after a rule.
#[derive(Clone, Copy)]
pub struct RuleCounts {
    pub vars: u32,
    pub used: Counts,
}

// aux is p xor n.
fn xor_gate(set: &mut ClauseSet<'_>, aux: Lit, p: Lit, n: Lit)
    requires { Below (2 ^ 30 + 2 ^ 29) set.old }
    ensures { Added set.old (xor_gate aux.0 p.0 n.0) set.new }
{
    set.push(&[!aux, p, n]);
    set.push(&[!aux, !p, !n]);
    set.push(&[aux, p, !n]);
    set.push(&[aux, !p, n]);
}

// next is p or not n.
fn first_gate(set: &mut ClauseSet<'_>, next: Lit, p: Lit, n: Lit)
    requires { Below (2 ^ 30 + 2 ^ 29) set.old }
    ensures { Added set.old (first_gate next.0 p.0 n.0) set.new }
{
    set.push(&[!next, p, !n]);
    set.push(&[!p, next]);
    set.push(&[n, next]);
}

// next is p and not n, or sub where the two are alike.
fn sub_gate(set: &mut ClauseSet<'_>, next: Lit, p: Lit, n: Lit, sub: Lit)
    requires { Below (2 ^ 30 + 2 ^ 29) set.old }
    ensures { Added set.old (sub_gate next.0 p.0 n.0 sub.0) set.new }
{
    set.push(&[!next, !n, sub]);
    set.push(&[!next, p, !n]);
    set.push(&[!next, p, sub]);
    set.push(&[!p, n, next]);
    set.push(&[!p, !n, !sub, next]);
    set.push(&[p, n, !sub, next]);
}

// The clauses of Ge's next literal, with or without one before it.
fn ge_gate(set: &mut ClauseSet<'_>, sub: Option<Lit>, next: Lit, p: Lit, n: Lit)
    requires { Below (2 ^ 30 + 2 ^ 29) set.old }
    ensures { Added set.old (ge_gate (sub_of sub) next.0 p.0 n.0) set.new }
{
    match sub {
        None => first_gate(set, next, p, n),
        Some(before) => sub_gate(set, next, p, n, before),
    }
}

// Ne: some bit of the two sums differs.
fn push_ne(set: &mut ClauseSet<'_>, ps: &[Lit], ns: &[Lit])
    requires { (length ps.now ≤ 32) × (length ns.now ≤ 32) × (set.old.vars ≤ 2 ^ 29) × Below (2 ^ 30 + 1) set.old }
    ensures { AddedRule set.old (ne_bits (map num ps.now) (map num ns.now) [] set.old.vars) set.new }
{
    let mut clause = Clause::empty();
    for (p, n) in ps.iter().zip(ns) {
        let aux = set.new_lit();
        xor_gate(set, aux, *p, *n);
        clause.push(aux);
    }
    let common = ps.len().min(ns.len());
    clause.extend(&ps[common..]);
    clause.extend(&ns[common..]);
    set.push(clause.as_slice());
}

// Clauses against each of these bits.
pub fn none_of(set: &mut ClauseSet<'_>, bits: &[Lit])
    requires { (length bits.now ≤ 32) × Below (2 ^ 31 - 32) set.old }
    ensures { Added set.old (none_of (map num bits.now)) set.new }
{
    for l in bits {
        set.push(&[!*l]);
    }
}

// Ge past the bits that both sums have.
fn ge_end(set: &mut ClauseSet<'_>, sub: Option<Lit>, ps: &[Lit], ns: &[Lit])
    requires { (length (sub_lits (sub_of sub)) + length ps.now ≤ 32) × (length ns.now ≤ 32) × Below (2 ^ 30 + 2 ^ 29) set.old }
    ensures { Added set.old (ge_end (sub_of sub) (map num ps.now) (map num ns.now)) set.new }
{
    let mut clause = Clause::empty();
    if let Some(l) = sub {
        clause.push(l);
    }
    clause.extend(ps);
    if clause.len > 0 {
        set.push(clause.as_slice());
    }
    if ps.is_empty() {
        none_of(set, ns);
    }
}

// Ge: the bits of the first sum make no less than those of the second.
fn push_ge(set: &mut ClauseSet<'_>, ps: &[Lit], ns: &[Lit])
    requires { (length ps.now ≤ 32) × (length ns.now ≤ 32) × (set.old.vars ≤ 2 ^ 29) × Below (2 ^ 30 + 1) set.old }
    ensures { AddedRule set.old (ge_bits (map num ps.now) (map num ns.now) set.old.vars) set.new }
{
    let mut sub = None;
    for (p, n) in ps.iter().zip(ns) {
        let next = set.new_lit();
        ge_gate(set, sub, next, *p, *n);
        sub = Some(next);
    }
    let common = ps.len().min(ns.len());
    ge_end(set, sub, &ps[common..], &ns[common..]);
}

// Ne, or Ge.
pub fn push_comparison(set: &mut ClauseSet<'_>, is_ne: bool, ps: &[Lit], ns: &[Lit])
    requires { (length ps.now ≤ 32) × (length ns.now ≤ 32) × (set.old.vars ≤ 2 ^ 29) × Below (2 ^ 30 + 1) set.old }
    ensures { AddedRule set.old (comparison is_ne (map num ps.now) (map num ns.now) set.old.vars) set.new }
{
    if is_ne {
        push_ne(set, ps, ns);
    } else {
        push_ge(set, ps, ns);
    }
}
