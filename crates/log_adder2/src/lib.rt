// The adder of Eq, after `log_encoding_adder2` of log.rs. A call that is lent no entries only counts.
#![tactic(auto)]

ghost use Rattle.std.specs.Prelude.{◌≡◌, false, [], length, map, ◌+◌, ◌-◌, ◌^◌, ◌≤◌, ◌<◌, take};
ghost use Rattle.sat.specs.Fresh.{fresh};
ghost use Rattle.sat.specs.LitArray.{num};
ghost use Rattle.clause_set.specs.Stores.{Added, Below, Wrote};
ghost use Rattle.log_adder.specs.AdderState.{CountsLow};
ghost use Rattle.log_adder.specs.ColumnInfo.{ColumnSized, range_lits};
ghost use Rattle.log_encoding.specs.Adder2.{adder2_clauses, eq_column, ordering, returned_set};
ghost use Rattle.log_encoding.specs.AdderSize.{eq_reached, greatest_height, too_tall};
ghost use Rattle.log_adder2.specs.EqState.{CarriesOrdered, EqColumnReady, EqFits, carries, carry_of, columns_clauses, eq_carry_count, eq_column_clauses, eq_input, eq_output, next_state, no_vars, target_bit};
ghost use Rattle.log_adder2.specs.declared.Column.TheVariants.{Carry, Dead};

use clause_set::ClauseSet;
use log_adder::{ColumnInfo, Columns, VarRange, infos, push_equation};
use sat::{Lit, Var};

// A column answers with its carry, first variable and count, or with a dead end.
#[derive(Clone, Copy)]
pub enum Column {
    Carry(Var, u32),
    Dead,
}

// How many columns; with x they are to add up to y; from which variable on the carries have theirs.
#[derive(Clone, Copy)]
pub struct EqInput {
    pub width: usize,
    pub x: u32,
    pub y: u32,
    pub vars: u32,
}

// Between two columns: what is left of x and y, the next carry's first variable, and the carry.
#[derive(Clone, Copy)]
struct EqState {
    x: u32,
    y: u32,
    vars: u32,
    carry: VarRange,
}

// A carry's literals fall.
fn push_ordering(set: &mut ClauseSet<'_>, carry: VarRange)
    requires { (carry.first.0 + carry.count < 2 ^ 30) × (carry.count ≤ 6) × Below (2 ^ 31) set.old }
    ensures { Added set.old (ordering (range_lits carry)) set.new }
{
    let first = carry.first.0;
    for i in 1..carry.count {
        let here = Var(first + i - 1).as_lit(false);
        let next = Var(first + i).as_lit(false);
        set.push(&[here, !next]);
    }
}

// The clauses of one column.
pub fn push_eq_column(set: &mut ClauseSet<'_>, c: ColumnInfo<'_>, x: u32, y: u32)
    requires column_sized { ColumnSized c }
    requires below { Below (2 ^ 31) set.old }
    ensures { Added set.old (eq_column_clauses c.entry x y) set.new }
{
    let high = c.own.len() as u64 + c.carry.count as u64;
    let total = high + 2 * c.next.count as u64;
    let above = x as u64 + high;
    let n = c.own.len() + 2;
    push_equation(set, &infos(c)[..n], above, y as u64, total);
}

// The greatest height of a column that the adder reaches; a dead end is the last that is reached.
pub fn eq_greatest_height(counts: &[u32], x: u32, y: u32) -> u32
    requires { (x < 2 ^ 31) × (y < 2 ^ 31) × CountsLow counts.now }
    ensures { result ≡ greatest_height (eq_reached counts.now x y 0) }
{
    let mut a = x;
    let mut b = y;
    let mut carry = 0;
    let mut most: u32 = 0;
    for count in counts {
        let height = *count + carry;
        most = most.max(height);
        let odd = (a + b) % 2;
        if height < odd {
            return most;
        }
        carry = (height - odd) / 2;
        a = (a + 1) / 2;
        b /= 2;
    }
    most
}

// The first pass: the variables and ordering clauses of the carries, up to a dead end; the carry into the last column.
pub fn order_carries(set: &mut ClauseSet<'_>, counts: &[u32], x: u32, y: u32) -> Column
    requires width { (1 ≤ length counts.now) × (length counts.now ≤ 26) × (x ≤ 1073741824) × (y ≤ 1073741824) }
    requires vars_bound { (set.old.vars ≤ 1048576) × Below (2 ^ 30 + 1) set.old }
    requires y_value { too_tall (eq_reached counts.now x y 0) ≡ false }
    ensures { CarriesOrdered set.old counts.now (eq_input (length counts.now) x y set.old.vars) set.new result }
{
    let mut a = x;
    let mut b = y;
    let mut carry = VarRange {
        first: Var(set.vars),
        count: 0,
    };
    for count in &counts[..counts.len() - 1] {
        let height = *count + carry.count;
        let odd = (a + b) % 2;
        if odd > height {
            return Column::Dead;
        }
        carry = VarRange {
            first: Var(set.vars),
            count: (height - odd) / 2,
        };
        set.vars += carry.count;
        push_ordering(set, carry);
        a = (a + 1) / 2;
        b /= 2;
    }
    Column::Carry(carry.first, carry.count)
}

// A column but the last, and the state after it.
fn add_next_column(set: &mut ClauseSet<'_>, own: &[Lit], s: EqState) -> EqState
    requires ready { EqColumnReady own.now s.carry s }
    requires below { Below (2 ^ 31) set.old }
    requires alive { target_bit s ≤ length own.now + s.carry.count }
    ensures state { result ≡ next_state (length own.now) s }
    ensures added { Added set.old (eq_column (map num own.now) (range_lits s.carry) 0 (fresh (eq_carry_count (length own.now) s) s.vars) (target_bit s)) set.new }
{
    let odd = (s.x + s.y) % 2;
    let next = VarRange {
        first: Var(s.vars),
        count: (own.len() as u32 + s.carry.count - odd) / 2,
    };
    let info = ColumnInfo {
        own,
        carry: s.carry,
        bit: 0,
        next,
        result: Lit(0),
    };
    push_eq_column(set, info, 0, odd);
    EqState {
        x: (s.x + 1) / 2,
        y: s.y / 2,
        vars: s.vars + next.count,
        carry: next,
    }
}

// The last column, with the carry into it.
fn add_last_column(set: &mut ClauseSet<'_>, own: &[Lit], carry: VarRange, s: EqState)
    requires ready { EqColumnReady own.now carry s }
    requires below { Below (2 ^ 31) set.old }
    ensures { Added set.old (eq_column (map num own.now) (range_lits carry) s.x [] s.y) set.new }
{
    let info = ColumnInfo {
        own,
        carry,
        bit: 0,
        next: VarRange {
            first: Var(0),
            count: 0,
        },
        result: Lit(0),
    };
    push_eq_column(set, info, s.x, s.y);
}

// The columns' clauses, where no column is a dead end; `carry` is the carry into the last column, as the first pass answered it.
fn add_eq_columns(set: &mut ClauseSet<'_>, cols: &Columns, last: usize, g: EqInput, carry: VarRange)
    requires last { (last ≡ g.width - 1) × (g.width ≤ length cols.now.counts) }
    requires eq_fits { EqFits cols.now g }
    requires y_value { too_tall (eq_reached (take g.width cols.now.counts) g.x g.y 0) ≡ false }
    requires carry_value { carry_of (Carry carry.first carry.count) ≡ (carries cols.now.counts g).last }
    requires lits_bound { (set.old.base + set.old.used.lits ≤ 1073742136) × (set.old.used.clauses ≤ 1073741981) }
    ensures { Added set.old (columns_clauses (g.width - 1) 0 cols.now.lits cols.now.counts g.x g.y no_vars g.vars) set.new }
{
    let mut s = EqState {
        x: g.x,
        y: g.y,
        vars: g.vars,
        carry: VarRange {
            first: Var(0),
            count: 0,
        },
    };
    for i in 0..last {
        s = add_next_column(set, cols.own(i), s);
    }
    add_last_column(set, cols.own(last), carry, s);
}

// The second pass: the returned set, which is the columns' clauses, or the empty clause of a dead end.
pub fn push_returned_set(set: &mut ClauseSet<'_>, cols: &Columns, g: EqInput, carry: Column)
    requires eq_fits { EqFits cols.now g }
    requires y_value { too_tall (eq_reached (take g.width cols.now.counts) g.x g.y 0) ≡ false }
    requires carry_value { carry_of carry ≡ (carries cols.now.counts g).last }
    requires lits_bound { (set.old.base + set.old.used.lits ≤ 1073742136) × (set.old.used.clauses ≤ 1073741981) }
    ensures { Added set.old (returned_set (eq_output cols.now g).returned) set.new }
{
    let last = cols.first_counts(g.width).len() - 1;
    let Column::Carry(first, count) = carry else {
        set.push(&[]);
        return;
    };
    add_eq_columns(set, cols, last, g, VarRange { first, count });
}

// The adder of Eq: all its clauses, the ordering clauses first; a dead end writes the empty clause in place of the columns'.
pub fn log_encoding_adder2(set: &mut ClauseSet<'_>, cols: &Columns, width: usize, x: u32, y: u32)
    requires eq_fits { EqFits cols.now (eq_input width x y set.old.vars) }
    requires y_value { too_tall (eq_reached (take width cols.now.counts) x y 0) ≡ false }
    requires lits_bound { Below (2 ^ 30 + 1) set.old }
    ensures { Wrote set.old (eq_output cols.now (eq_input width x y set.old.vars)).vars (adder2_clauses (eq_output cols.now (eq_input width x y set.old.vars))) set.new }
{
    let g = EqInput {
        width,
        x,
        y,
        vars: set.vars,
    };
    let carry = order_carries(set, cols.first_counts(width), x, y);
    push_returned_set(set, cols, g, carry);
}
