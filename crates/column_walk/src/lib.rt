// How many clauses and literal entries one column has, by walking its clauses: its writer is lent no store, so it only counts.
#![tactic(auto)]

ghost use Rattle.std.specs.Prelude.{◌≡◌, ◌+◌, ◌<◌, ◌^◌, ◌≤◌};
ghost use Rattle.log_encoding.specs.AdderSize.{column_count, eq_column_count};
ghost use Rattle.column_walk.specs.Walked.{AnyColumn, Walked, plus};

use clause_set::{ClauseSet, Counts};
use log_adder::{ColumnInfo, VarRange, push_column};
use log_adder2::push_eq_column;
use sat::{Lit, Var};

// A column of these own literals, and so many carries and new carries.
fn any_column(own: &[Lit], carries: u32, bit: u32, next: u32) -> ColumnInfo<'_>
    ensures { AnyColumn own.now carries bit next result }
{
    ColumnInfo {
        own,
        carry: VarRange {
            first: Var(0),
            count: carries,
        },
        bit,
        next: VarRange {
            first: Var(0),
            count: next,
        },
        result: Lit(0),
    }
}

// Both counts together.
pub fn plus(a: Counts, b: Counts) -> Counts
    requires clauses_fit { a.clauses + b.clauses < 2 ^ 64 }
    requires lits_fit { a.lits + b.lits < 2 ^ 64 }
    ensures { result ≡ plus a b }
{
    Counts {
        clauses: a.clauses + b.clauses,
        lits: a.lits + b.lits,
    }
}

// A column of the adder of Ne, Ge and products, with a constant bit.
pub fn walk_column(own: u32, carries: u32, bit: u32) -> Counts
    requires { (own + carries ≤ 12) × (bit ≤ 1) }
    ensures { Walked (λ weigh. column_count weigh own carries bit) result }
{
    let mut set = ClauseSet {
        lits: &mut [],
        ends: &mut [],
        base: 0,
        vars: 0,
        used: Counts {
            clauses: 0,
            lits: 0,
        },
    };
    let lits = [Lit(0); 12];
    let next = (bit + own + carries) / 2;
    let c = any_column(&lits[..own as usize], carries, bit, next);
    push_column(&mut set, c);
    set.used
}

// A column of Eq: with x its literals add up to y and twice the new carries.
pub fn walk_eq_column(own: u32, carries: u32, x: u32, next: u32, y: u32) -> Counts
    requires { (own + carries ≤ 12) × (next ≤ 6) }
    ensures { Walked (λ weigh. eq_column_count weigh own carries x next y) result }
{
    let mut set = ClauseSet {
        lits: &mut [],
        ends: &mut [],
        base: 0,
        vars: 0,
        used: Counts {
            clauses: 0,
            lits: 0,
        },
    };
    let lits = [Lit(0); 12];
    let c = any_column(&lits[..own as usize], carries, 0, next);
    push_eq_column(&mut set, c, x, y);
    set.used
}
