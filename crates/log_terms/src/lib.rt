// The terms of a sum, after `encode_linear_log_from_encodings` of log.rs: gathered into columns by weight, and what Eq's negated
// literals add too much.
#![tactic(auto)]

ghost use Rattle.std.specs.Prelude.{◌≡◌, cond, [], ◌∷◌, ◌-◌, ◌*◌, ◌≤◌, ◌<◌, length, map};
ghost use Rattle.std.specs.Bool.{beq};
ghost use Rattle.arithmetic.specs.Bits.{shl};
ghost use Rattle.log_gather.specs.Arrays.{Arrays, Few, Pushed, widths};
ghost use Rattle.log_encoding.specs.Linear.{gather, gather_sign, negated_constant, positive_lits, push_scaled_some};
ghost use Rattle.log_terms.specs.Gathered.{Gathered};
ghost use Rattle.log_terms.specs.Terms.{TermFits, TermsFit, some_width, weighted_of};

use log_adder::Columns;
use log_gather::{negate_all, no_columns, push_scaled, width_after};
use log_linear::Bits;

// Literals of a number, the lowest first, with a coefficient and its sign.
#[derive(Clone, Copy)]
pub struct Weighted {
    pub negative: bool,
    pub coef: u32,
    pub bits: Bits,
}

// The terms of a sum, within bounds: their coefficients have at most that many bits.
#[derive(Clone, Copy)]
pub struct Terms<'a> {
    pub list: &'a [Weighted],
    pub steps: usize,
    ghost fits: { TermsFit steps list.now },
}

// How many columns there are after a term of that sign.
fn width_with_term(width: usize, t: &Weighted, sign: bool, steps: usize) -> usize
    requires { (steps ≤ 12) × (width ≤ 25) × TermFits steps t.now }
    ensures { (result ≡ cond (beq sign t.now.negative) (widths 12 t.now.coef 0 t.now.bits.len width) width) × (result ≤ 25) }
{
    if sign == t.negative {
        return width_after(width, t.bits.len, t.coef, steps);
    }
    width
}

// Eq: a term in columns, if it has bits; a negative one by its negated literals.
fn push_eq_term(cols: &mut Columns, t: &Weighted, steps: usize)
    requires steps_bound { (steps ≤ 12) × TermFits steps t.now }
    requires arrays { Arrays cols.old × Few 2147480000 cols.old }
    ensures { Pushed 384 cols.old (push_scaled_some t.now.coef (positive_lits (weighted_of t.now))) cols.new }
{
    if t.bits.len == 0 {
        return;
    }
    let lits = t.bits.as_slice();
    if t.negative {
        push_scaled(cols, negate_all(lits).as_slice(), t.coef, 0, steps);
    } else {
        push_scaled(cols, lits, t.coef, 0, steps);
    }
}

// Eq: how many columns there are after a term.
fn width_with_eq_term(width: usize, t: &Weighted, steps: usize) -> usize
    requires { (steps ≤ 12) × (width ≤ 25) × TermFits steps t.now }
    ensures { (result ≡ some_width t.now.coef t.now.bits.len width) × (result ≤ 25) }
{
    if t.bits.len == 0 {
        return width;
    }
    width_after(width, t.bits.len, t.coef, steps)
}

// A number doubled so many times.
fn doubled(k: u32, times: usize) -> u32
    requires { shl times k < 33554432 }
    ensures { result ≡ shl times k }
{
    let mut x = k;
    for _i in 0..times {
        x = 2 * x;
    }
    x
}

// Eq: what a term's negated literals add too much.
fn negated_term(t: &Weighted) -> u32
    requires { shl t.now.bits.len t.now.coef < 33554432 }
    ensures { (result ≡ cond t.now.negative (t.now.coef * (shl t.now.bits.len 1 - 1)) 0) × (result < 33554432) }
{
    if t.negative {
        doubled(t.coef, t.bits.len) - t.coef
    } else {
        0
    }
}

impl Terms<'_> {
    // Ne and Ge: the terms of one sign in columns.
    pub fn gather_sign(&self, sign: bool) -> Columns
        ensures { Gathered (gather_sign sign (map weighted_of self.now.list.now) ([] ∷ [])) result }
    {
        let mut cols = no_columns();
        for t in self.list {
            if sign == t.negative {
                push_scaled(&mut cols, t.bits.as_slice(), t.coef, 0, self.steps);
            }
        }
        cols
    }

    // How many columns the terms of one sign have, at least one.
    pub fn width_of_sign(&self, sign: bool) -> usize
        ensures { (result ≡ length (gather_sign sign (map weighted_of self.now.list.now) ([] ∷ []))) × (result ≤ 25) }
    {
        let mut w: usize = 1;
        for t in self.list {
            w = width_with_term(w, t, sign, self.steps);
        }
        w
    }

    // Eq: the terms in columns.
    pub fn gather(&self) -> Columns
        ensures { Gathered (gather (map weighted_of self.now.list.now) []) result }
    {
        let mut cols = no_columns();
        for t in self.list {
            push_eq_term(&mut cols, t, self.steps);
        }
        cols
    }

    // Eq: how many columns the terms have.
    pub fn width_of(&self) -> usize
        ensures { (result ≡ length (gather (map weighted_of self.now.list.now) [])) × (result ≤ 25) }
    {
        let mut w: usize = 0;
        for t in self.list {
            w = width_with_eq_term(w, t, self.steps);
        }
        w
    }

    // Eq: what the negated literals of all terms add too much.
    pub fn negated_constant(&self) -> u32
        ensures { (result ≡ negated_constant (map weighted_of self.now.list.now)) × (result < 268435456) }
    {
        let mut sum: u32 = 0;
        for t in self.list {
            sum += negated_term(t);
        }
        sum
    }
}
