// The clauses of one inequality and of one equation, after `encode_linear_ge_mixed_from_info` and `encode_linear_eq_mixed_from_info` of
// mixed.rs. A call that is lent no entries only counts.
// The thresholds of the terms go into one table (specs/Filling), by which the clauses are told.
#![tactic(auto)]

ghost use Rattle.std.specs.Prelude.{◌≡◌, map, ◌+◌, ◌*◌, ◌^◌, ◌≤◌, ◌<◌, length, take};
ghost use Rattle.clause_set.specs.Stores.{Added, Fits};
ghost use Rattle.log_encoding.specs.Enumerate.{bounded};
ghost use Rattle.mixed.specs.Infos.{AllSmall, InTable, Small, equated, info_lit, info_term, negated_info};
ghost use Rattle.mixed.specs.Filling.{Filled, put_last, put_term};
ghost use Rattle.mixed_table.specs.Table.{empty_table};

use clause_set::ClauseSet;
use mixed_table::{Row, Table, encode_table};
use sat::Lit;
use std::ops::Neg;

// A term of an inequality: `count` thresholds, the first with the literal `first`, the others with those of the variables after it.
// Each is worth `weight`. Where the coefficient is negative (`falling`), they are the negations, from the last variable down.
#[derive(Clone, Copy, Default)]
pub struct LinearInfo {
    pub weight: u32,
    pub falling: bool,
    pub first: Lit,
    pub count: u32,
}

// The literal of threshold `i` of a term.
pub fn lit_at(t: LinearInfo, i: u32) -> Lit
    requires small { Small t }
    requires i_lt_count { i < t.count }
    ensures { result.0 ≡ info_lit t i }
{
    let f = t.first;
    if t.falling {
        !Lit(f.0 + 2 * (t.count - 1 - i))
    } else {
        Lit(f.0 + 2 * i)
    }
}

// The last term's part of a table.
fn add_last(tab: &mut Table, t: LinearInfo)
    requires top { t.weight * t.count ≤ 24 }
    requires small { Small t }
    ensures { tab.new ≡ put_last tab.old t }
{
    let top = t.weight * t.count;
    tab.rows[0].loss = top;
    for slack in 0..top {
        tab.ends[slack as usize] = lit_at(t, t.count - slack / t.weight - 1);
    }
}

// A term's thresholds, from the last, before `terms` terms with `left` thresholds and a loss of `lost`.
fn add_term(tab: &mut Table, terms: usize, left: usize, lost: u32, t: LinearInfo)
    requires tab_fits { (terms < 23) × (left + t.count < 24) × (t.weight * t.count + lost < 2 ^ 32) }
    requires small { Small t }
    ensures { tab.new ≡ put_term tab.old t terms left lost }
{
    tab.tops[terms + 1] = left + t.count as usize;
    let mut cost: u32 = 0;
    for i in 0..t.count {
        cost += t.weight;
        tab.rows[left + i as usize + 1] = Row {
            lit: lit_at(t, t.count - 1 - i),
            cost,
            terms: terms + 1,
            loss: cost + lost,
        };
    }
}

// The table of the terms, from the last; how many stand before it.
fn fill_table(tab: &mut Table, ts: &[LinearInfo]) -> usize
    requires all_small { AllSmall ts.now }
    requires in_table { (length ts.now ≤ 15) × InTable ts.now }
    requires tab_value { tab.old ≡ empty_table }
    ensures { Filled tab.new ts.now result }
{
    let Some((last, before)) = ts.split_last() else {
        return 0;
    };
    add_last(tab, *last);
    let mut terms: usize = 0;
    let mut left: usize = 0;
    let mut lost = last.weight * last.count;
    for i in (0..before.len()).rev() {
        let t = before[i];
        add_term(tab, terms, left, lost, t);
        terms += 1;
        left += t.count as usize;
        lost += t.weight * t.count;
    }
    terms
}

// The clauses of the inequality whose slack is `above - below`; below 0, one empty clause.
pub fn encode_linear_ge_mixed_from_info(
    set: &mut ClauseSet<'_>,
    ts: &[LinearInfo],
    above: u64,
    below: u64,
)
    requires all_small { AllSmall ts.now }
    requires in_table { (length ts.now ≤ 15) × InTable ts.now }
    requires fits { Fits set.old.base set.old.used (bounded (map info_term ts.now) above below) }
    ensures { Added set.old (bounded (map info_term ts.now) above below) set.new }
{
    if above < below {
        set.push(&[]);
        return;
    }
    let mut tab = Table::empty();
    let left = fill_table(&mut tab, ts);
    encode_table(set, &tab, left, above - below);
}

// The term of minus the number.
impl Neg for LinearInfo {
    type Output = LinearInfo;

    ghost neg_gives = { λ t u. u ≡ negated_info t };

    fn neg(self) -> LinearInfo {
        LinearInfo {
            falling: !self.falling,
            ..self
        }
    }
}

// The terms of minus their sum.
fn negate_all(ts: &[LinearInfo]) -> [LinearInfo; 15]
    requires { AllSmall ts.now × (length ts.now ≤ 15) }
    ensures { take (length ts.now) result ≡ map negated_info ts.now }
{
    let mut out = [LinearInfo::default(); 15];
    for (i, t) in ts.iter().enumerate() {
        out[i] = -*t;
    }
    out
}

// The clauses of an equation: both inequalities, the second over the negated terms. `total` is what the terms can lose.
pub fn encode_linear_eq_mixed_from_info(
    set: &mut ClauseSet<'_>,
    ts: &[LinearInfo],
    above: u64,
    below: u64,
    total: u64,
)
    requires all_small { AllSmall ts.now }
    requires in_table { (length ts.now ≤ 15) × (below + total < 2 ^ 64) × InTable ts.now }
    requires fits { Fits set.old.base set.old.used (equated ts.now above below total) }
    ensures { Added set.old (equated ts.now above below total) set.new }
{
    encode_linear_ge_mixed_from_info(set, ts, above, below);
    let down = negate_all(ts);
    encode_linear_ge_mixed_from_info(set, &down[..ts.len()], below + total, above);
}
