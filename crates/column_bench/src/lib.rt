// The writer of one column's clauses, for the benchmark, which links it beside the Rust.
#![tactic(auto)]

ghost use Rattle.std.specs.Prelude.{◌≡◌, ◌+◌, ◌≤◌};
ghost use Rattle.column_bench.specs.BenchColumn.{bench_own, written};

use clause_set::{ClauseSet, Counts};
use log_adder::{ColumnInfo, VarRange};
use sat::{Lit, Var};

// Twelve own literals.
fn own_lits() -> [Lit; 12]
    ensures { result ≡ bench_own }
{
    [
        Lit(0),
        Lit(2),
        Lit(4),
        Lit(6),
        Lit(8),
        Lit(10),
        Lit(12),
        Lit(14),
        Lit(16),
        Lit(18),
        Lit(20),
        Lit(22),
    ]
}

// Writes the clauses of the column with that many own literals and carries from the front of the two stores, and answers how many they are.
#[unsafe(no_mangle)]
pub extern "C" fn write_column(
    lits: &mut [u32],
    ends: &mut [u32],
    height: u32,
    carries: u32,
    bit: u32,
) -> usize
    requires { (height + carries ≤ 12) × (bit ≤ 1) }
    ensures { (lits.new ≡ (written height carries bit lits.old ends.old).lits) × (ends.new ≡ (written height carries bit lits.old ends.old).ends) × (result ≡ (written height carries bit lits.old ends.old).count) }
{
    let mut set = ClauseSet {
        lits,
        ends,
        base: 0,
        vars: 0,
        used: Counts {
            clauses: 0,
            lits: 0,
        },
    };
    let own = own_lits();
    let c = ColumnInfo {
        own: &own[..height as usize],
        carry: VarRange {
            first: Var(100),
            count: carries,
        },
        bit,
        next: VarRange {
            first: Var(200),
            count: (bit + height + carries) / 2,
        },
        result: Lit(600),
    };
    log_adder::push_column(&mut set, c);
    set.used.clauses
}
