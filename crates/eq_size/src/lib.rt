// The size of the adder of Eq from its columns' counts of literals: the clauses of each column are walked, none is written.
#![tactic(auto)]

ghost use Rattle.std.specs.Prelude.{◌≡◌, false, [], length, ◌+◌, ◌-◌, ◌*◌, ◌≤◌};
ghost use Rattle.log_encoding.specs.AdderSize.{eq_column_count, eq_reached, too_tall};
ghost use Rattle.eq_size.specs.Sized.{EqSized};
ghost use Rattle.eq_size.specs.Counted.{ColumnCounted, Few, Grown, InBounds, both, odd_bit, start};

use clause_set::Counts;
use column_walk::{plus, walk_eq_column};
use log_linear::RuleCounts;

// The columns counted so far: x and y of the rest, the last carry's literals, all carries' variables;
// the ordering clauses are sent at once, the columns' clauses are returned at the end.
#[derive(Clone, Copy)]
struct CountedColumns {
    x: u32,
    y: u32,
    carry: u32,
    vars: u32,
    sent: Counts,
    returned: Counts,
}

impl CountedColumns {
    // Before the first column.
    fn start(x: u32, y: u32) -> CountedColumns
        ensures { result ≡ start x y }
    {
        CountedColumns {
            x,
            y,
            carry: 0,
            vars: 0,
            sent: Counts::default(),
            returned: Counts::default(),
        }
    }

    // A column but the last, which is no dead end.
    fn next_column(self, own: u32) -> CountedColumns
        requires { InBounds 26 self × (own + self.carry ≤ 12) × (odd_bit self ≤ own + self.carry) }
        ensures { ColumnCounted own self result }
    {
        let odd = (self.x + self.y) % 2;
        let next = (own + self.carry - odd) / 2;
        CountedColumns {
            x: (self.x + 1) / 2,
            y: self.y / 2,
            carry: next,
            vars: self.vars + next,
            sent: with_ordering(self.sent, next),
            returned: with_column(self.returned, own, self.carry, 0, next, odd),
        }
    }

    // A dead end returns an empty clause in place of the columns' clauses.
    fn dead_end(self) -> RuleCounts
        requires { InBounds 26 self }
        ensures { (result.vars ≡ self.vars) × Grown (λ weigh. weigh 0) self.sent result.used }
    {
        RuleCounts {
            vars: self.vars,
            used: Counts {
                clauses: self.sent.clauses + 1,
                lits: self.sent.lits,
            },
        }
    }

    // The last column, which has no new carry.
    fn last_column(self, own: u32) -> RuleCounts
        requires { InBounds 26 self × (own + self.carry ≤ 12) }
        ensures { (result.vars ≡ self.vars) × Grown (λ weigh. eq_column_count weigh own self.carry self.x 0 self.y) (both self) result.used }
    {
        let all = plus(self.sent, self.returned);
        RuleCounts {
            vars: self.vars,
            used: with_column(all, own, self.carry, self.x, 0, self.y),
        }
    }
}

// The ordering clauses of a carry more, of two literals each.
fn with_ordering(u: Counts, next: u32) -> Counts
    requires { Few u × (next ≤ 6) }
    ensures { Grown (λ weigh. (next - 1) * weigh 2) u result }
{
    let n = next.saturating_sub(1) as usize;
    Counts {
        clauses: u.clauses + n,
        lits: u.lits + 2 * n,
    }
}

// The clauses of a column more: with x its literals add up to y and twice the new carry's.
fn with_column(u: Counts, own: u32, carry: u32, x: u32, next: u32, y: u32) -> Counts
    requires { Few u × (own + carry ≤ 12) × (next ≤ 6) }
    ensures { Grown (λ weigh. eq_column_count weigh own carry x next y) u result }
{
    plus(u, walk_eq_column(own, carry, x, next, y))
}

// Without a column: an empty clause, unless x is y.
fn no_columns(x: u32, y: u32) -> RuleCounts
    ensures { EqSized [] x y result }
{
    RuleCounts {
        vars: 0,
        used: Counts {
            clauses: usize::from(x != y),
            lits: 0,
        },
    }
}

// The variables, clauses and literal entries that Eq over columns of so many literals adds: one by one, up to the last or to a dead end.
pub fn eq_size(counts: &[u32], x: u32, y: u32) -> RuleCounts
    requires width_bound { (length counts.now ≤ 26) × (x ≤ 1073741824) × (y ≤ 1073741824) }
    requires y_value { too_tall (eq_reached counts.now x y 0) ≡ false }
    ensures { EqSized counts.now x y result }
{
    let Some((last, others)) = counts.split_last() else {
        return no_columns(x, y);
    };
    let mut s = CountedColumns::start(x, y);
    for own in others {
        if *own + s.carry < (s.x + s.y) % 2 {
            return s.dead_end();
        }
        s = s.next_column(*own);
    }
    s.last_column(*last)
}
