// The two lent stores, after `ClauseSet` of encoder/mod.rs: literals, and clause ends with a leading 0. Adding a clause always counts
// it and stores only what lies inside a store, so that a call that is lent nothing only counts.
#![tactic(auto)]

ghost use Rattle.std.specs.Prelude.{◌≡◌, ℕ, false, List, [], ◌∷◌, ◌++◌, ◌+◌, ◌^◌, ◌≤◌, ◌<◌, get_or, length, map, set};
ghost use Rattle.sat.specs.Lit.{as_lit};
ghost use Rattle.sat.specs.LitArray.{num};
ghost use Rattle.clause_set.specs.Bytes.{clause_holds, lit_holds};
ghost use Rattle.clause_set.specs.Clause.{clause_lits};
ghost use Rattle.clause_set.specs.Stores.{Added, Closed, Fits, Within, Wrote, part};

use sat::{Lit, Var};

// How much of the two stores is in use.
#[derive(Clone, Copy, Default)]
pub struct Counts {
    pub clauses: usize,
    pub lits: usize,
}

// The two lent stores and what is counted. Ends count from `base`, where a lent part of the literal store begins.
#[derive(Drop)]
pub struct ClauseSet<'a> {
    pub lits: &'a mut [u32],
    pub ends: &'a mut [u32],
    pub base: u32,
    pub vars: u32,
    pub used: Counts,
}

impl ClauseSet<'_> {
    // The plain literal of a new variable.
    pub fn new_lit(&mut self) -> Lit
        requires { self.old.vars < 2 ^ 30 }
        ensures new_lit { result.0 ≡ as_lit self.old.vars false }
        ensures wrote { Wrote self.old (self.old.vars + 1) [] self.new }
    {
        let v = Var(self.vars);
        self.vars += 1;
        v.as_lit(false)
    }

    // Adds a clause.
    pub fn push(&mut self, clause: &[Lit])
        requires fits { Fits self.old.base self.old.used (map num clause.now ∷ []) }
        ensures added { Added self.old (map num clause.now ∷ []) self.new }
        ensures lits { self.new.used.lits ≡ self.old.used.lits + length clause.now }
        ensures clauses { self.new.used.clauses ≡ self.old.used.clauses + 1 }
    {
        let from = self.used.lits;
        let n = clause.len();
        let stored = n.min(self.lits.len().saturating_sub(from));
        let lits = &mut *self.lits;
        for (i, l) in clause[..stored].iter().enumerate() {
            lits[from + i] = l.0;
        }
        self.close(n);
    }

    // Makes a clause of the n literals that stand behind those in use.
    pub fn close(&mut self, n: usize)
        requires { (self.old.base + (self.old.used.lits + n) < 2 ^ 32) × (self.old.used.clauses + 2 < 2 ^ 32) }
        ensures { Closed self.old n self.new }
    {
        let k = self.used.clauses;
        let end = self.used.lits + n;
        put(self.ends, k + 1, self.base + end as u32);
        self.used = Counts {
            clauses: k + 1,
            lits: end,
        };
    }
}

// A clause that is put together literal by literal.
#[derive(Clone, Copy)]
pub struct Clause {
    pub lits: [Lit; 32],
    pub len: usize,
}

impl Clause {
    pub fn empty() -> Clause
        ensures { (result.len ≡ 0) × (clause_lits result ≡ []) }
    {
        let lits = [Lit(0); 32];
        Clause { lits, len: 0 }
    }

    // One literal more.
    pub fn push(&mut self, l: Lit)
        requires { self.old.len < 32 }
        ensures { (self.new.len ≡ self.old.len + 1) × (clause_lits self.new ≡ clause_lits self.old ++ l.0 ∷ []) }
    {
        let at = self.len;
        self.lits[at] = l;
        self.len += 1;
    }

    // The literals of `more` behind it.
    pub fn extend(&mut self, more: &[Lit])
        requires { self.old.len + length more.now ≤ 32 }
        ensures { (self.new.len ≡ self.old.len + length more.now) × (clause_lits self.new ≡ clause_lits self.old ++ map num more.now) }
    {
        for l in more {
            self.push(*l);
        }
    }

    // The last literal left out.
    pub fn pop(&mut self)
        requires { (0 < self.old.len) × (self.old.len ≤ 32) }
        ensures len { self.new.len + 1 ≡ self.old.len }
        ensures lits { (xs : List ℕ) (x : ℕ) → clause_lits self.old ≡ xs ++ x ∷ [] → clause_lits self.new ≡ xs }
    {
        self.len -= 1;
    }

    pub fn as_slice(&self) -> &[Lit]
        requires { self.now.len ≤ 32 }
        ensures { map num result.now ≡ clause_lits self.now }
    {
        &self.lits[..self.len]
    }
}

// Stores x at i; past the end nothing is stored.
pub fn put(store: &mut [u32], i: usize, x: u32)
    ensures { store.new ≡ set store.old i x }
{
    if i < store.len() {
        store[i] = x;
    }
}

// The entry at i, 0 past the end.
pub fn entry(store: &[u32], i: usize) -> u32
    ensures { result ≡ get_or store.now i 0 }
{
    store.get(i).copied().unwrap_or(0)
}

// Where a free tail begins that is lent on: past a store's end nothing is lent.
pub fn within(n: usize, long: usize) -> usize
    ensures { (result ≤ long) × Within n long result }
{
    n.min(long)
}

// A clause, handed back as the part of the literal store from the end before it to its own.
pub fn clause_part<'a>(lits: &'a [u32], begin: usize, end: usize) -> &'a [u32]
    requires { (begin ≤ end) × (end ≤ length lits.now) }
    ensures { result.now ≡ part begin end lits.now }
{
    &lits[begin..end]
}

// Whether a literal holds under an assignment of bytes.
pub fn holds(l: Lit, assignment: &[u8]) -> bool
    ensures { result ≡ lit_holds assignment.now l.0 }
{
    let x = l.var();
    let v = x.0 as usize;
    if v >= assignment.len() {
        return false;
    }
    if l.is_negated() {
        assignment[v] == 0
    } else {
        assignment[v] == 1
    }
}

// Whether some literal of a clause that was handed back holds.
pub fn evaluate(clause: &[u32], assignment: &[u8]) -> bool
    ensures { result ≡ clause_holds assignment.now clause.now }
{
    clause.iter().any(|l| holds(Lit(*l), assignment))
}

// Whether the clause from `begin` to `end` of the literal store holds.
pub fn evaluate_part(lits: &[u32], begin: usize, end: usize, assignment: &[u8]) -> bool
    requires { (begin ≤ end) × (end ≤ length lits.now) }
    ensures { result ≡ clause_holds assignment.now (part begin end lits.now) }
{
    evaluate(&lits[begin..end], assignment)
}
