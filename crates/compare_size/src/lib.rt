// The size of Ne and Ge from the sizes of their two sums: no clause is walked.
#![tactic(auto)]

ghost use Rattle.std.specs.Prelude.{◌≡◌, false, true, ◌≤◌};
ghost use Rattle.compare_size.specs.Compared.{Compared, SumReady, last_counts};

use adder_size::AdderSize;
use clause_set::Counts;
use column_walk::plus;
use log_linear::RuleCounts;

// Ne of sums of p and n bits: a gate of four clauses of three literals for each bit that both have, then one clause of the rest.
fn ne_counts(p: u32, n: u32) -> Counts
    requires { (p ≤ 32) × (n ≤ 32) }
    ensures { result ≡ last_counts true p n }
{
    let both = p.min(n) as usize;
    let longer = p.max(n) as usize;
    Counts {
        clauses: 4 * both + 1,
        lits: 12 * both + longer,
    }
}

// Ge: the first gate has a clause of three literals and two of two, the others four of three and two of four.
fn ge_counts(p: u32, n: u32) -> Counts
    requires { (p ≤ 32) × (n ≤ 32) }
    ensures { result ≡ last_counts false p n }
{
    if p == 0 {
        return Counts {
            clauses: n as usize,
            lits: n as usize,
        };
    }
    if n == 0 {
        return Counts {
            clauses: 1,
            lits: p as usize,
        };
    }
    if p < n {
        let rest = n as usize - p as usize;
        return Counts {
            clauses: 6 * p as usize + rest - 2,
            lits: 20 * p as usize + rest - 12,
        };
    }
    Counts {
        clauses: 6 * n as usize - 2,
        lits: 19 * n as usize + p as usize - 12,
    }
}

// The last clauses of Ne or Ge. The flag stays: it is the rule asked for, and a closure in its place would have to bring the same contract.
fn last_counts(is_ne: bool, p: u32, n: u32) -> Counts
    requires { (p ≤ 32) × (n ≤ 32) }
    ensures { (result ≡ last_counts is_ne p n) × (result.clauses ≤ 1000) × (result.lits ≤ 1000) }
{
    if is_ne {
        return ne_counts(p, n);
    }
    ge_counts(p, n)
}

// Both sums, a variable for each bit that both have, and the last clauses.
pub fn compare_size(is_ne: bool, p: AdderSize, n: AdderSize) -> RuleCounts
    requires { SumReady p × SumReady n }
    ensures { Compared is_ne p n result }
{
    let last = last_counts(is_ne, p.bits, n.bits);
    RuleCounts {
        vars: p.carries + p.bits + (n.carries + n.bits) + p.bits.min(n.bits),
        used: plus(plus(p.used, n.used), last),
    }
}
