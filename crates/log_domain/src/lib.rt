// The clauses that keep a code within its bounds and out of a list's gaps, after `encode_var_log` of log.rs.
#![tactic(auto)]

ghost use Rattle.std.specs.Prelude.{◌≡◌, [], ◌∷◌, ◌+◌, ◌-◌, ◌^◌, ◌<◌, ◌<ℤ◌, ◌≤ℤ◌};
ghost use Rattle.arithmetic.specs.Integers.{down, up};
ghost use Rattle.arithmetic.specs.Offset.{code};
ghost use Rattle.sat.specs.Fresh.{fresh};
ghost use Rattle.clause_set.specs.Stores.{Added, Fits};
ghost use Rattle.log_encoding.specs.Domain.{against, gap};
ghost use Rattle.log_domain.specs.Domain.{RisingAt, bound, gaps_from};

use arithmetic::code;
use clause_set::{ClauseSet, put};
use sat::Var;

// Adds the clause against code k, over the n variables from `first` on. Its literals go straight to the store: there may be many.
pub fn add_against(set: &mut ClauseSet<'_>, first: Var, n: u32, k: u32)
    requires n_bound { first.0 + n < 2 ^ 31 }
    requires fits { Fits set.old.base set.old.used (against (fresh n first.0) k ∷ []) }
    ensures { Added set.old (against (fresh n first.0) k ∷ []) set.new }
{
    let from = set.used.lits;
    let lits = &mut *set.lits;
    let mut x = k;
    for i in 0..n {
        let l = Var(first.0 + i).as_lit(x % 2 == 1);
        put(lits, from + i as usize, l.0);
        x /= 2;
    }
    set.close(n as usize);
}

// Bounds the code of the n variables from `first` on by k: from below by a clause for each set bit of k, from above by one for each
// clear bit. The clause is against the code that differs from k in that bit, over it and the bits above.
pub fn add_bound(lower: bool, set: &mut ClauseSet<'_>, first: Var, n: u32, k: u32)
    requires n_bound { (first.0 + n < 2 ^ 31) × (k < 2 ^ 31) }
    requires fits { Fits set.old.base set.old.used (bound lower (fresh n first.0) k) }
    ensures { Added set.old (bound lower (fresh n first.0) k) set.new }
{
    let mut x = k;
    for i in 0..n {
        if (x % 2 == 1) == lower {
            add_against(set, Var(first.0 + i), n - i, x + 1 - 2 * (x % 2));
        }
        x /= 2;
    }
}

// Adds a clause against each of `many` codes from k on.
fn add_gap(set: &mut ClauseSet<'_>, first: Var, n: u32, k: u32, many: u32)
    requires n_bound { (first.0 + n < 2 ^ 31) × (k + many < 2 ^ 31) }
    requires fits { Fits set.old.base set.old.used (gap (fresh n first.0) k many) }
    ensures { Added set.old (gap (fresh n first.0) k many) set.new }
{
    for x in k..k + many {
        add_against(set, first, n, x);
    }
}

// Adds a clause against each code between those of two values.
fn add_gap_between(set: &mut ClauseSet<'_>, first: Var, n: u32, offset: i32, a: i32, b: i32)
    requires n_bound { (first.0 + n < 2 ^ 31) × (offset ≤ℤ a) × (a <ℤ b) × (up b < 4096) × (down offset < 4096) }
    requires fits { Fits set.old.base set.old.used (gap (fresh n first.0) (code offset a + 1) (code offset b - (code offset a + 1))) }
    ensures { Added set.old (gap (fresh n first.0) (code offset a + 1) (code offset b - (code offset a + 1))) set.new }
{
    let k = code(offset, a);
    let m = code(offset, b);
    add_gap(set, first, n, k + 1, m - (k + 1));
}

// Adds a clause against each missing code of a list of values, rising.
pub fn add_gaps(set: &mut ClauseSet<'_>, first: Var, n: u32, offset: i32, values: &[i32])
    requires n_bound { (first.0 + n < 2 ^ 31) × RisingAt offset values.now 0 }
    requires fits { Fits set.old.base set.old.used (gaps_from (fresh n first.0) offset values.now 0) }
    ensures { Added set.old (gaps_from (fresh n first.0) offset values.now 0) set.new }
{
    for i in 0..values.len() - 1 {
        add_gap_between(set, first, n, offset, values[i], values[i + 1]);
    }
}
