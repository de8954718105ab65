// Sums of literals with coefficients, after `encode_linear_log_from_encodings` of log.rs: the terms in columns, the two adders, the
// comparison. A call that is lent no entries only counts.
#![tactic(auto)]

ghost use Rattle.std.specs.Prelude.{◌≡◌, false, true, [], ◌∷◌, ◌++◌, max, ◌+◌, ◌^◌, ◌≤◌, ◌<◌, length, map};
ghost use Rattle.arithmetic.specs.Bits.{bit_length};
ghost use Rattle.arithmetic.specs.Integers.{down, up};
ghost use Rattle.clause_set.specs.Stores.{AddedRule, Below};
ghost use Rattle.norm_csp.specs.NormOp.{eq};
ghost use Rattle.norm_csp.specs.Operations.{normalized};
ghost use Rattle.log_encoding.specs.Adder2.{eq_adder};
ghost use Rattle.log_encoding.specs.AdderSize.{greatest_height, too_tall};
ghost use Rattle.log_encoding.specs.EncodeLinearLog.{encode_weighted, eq_rule};
ghost use Rattle.log_encoding.specs.Linear.{gather_sign, linear_compared, linear_eq, negated_constant, sign_adder};
ghost use Rattle.log_encoding.specs.LinearSize.{linear_reached, sign_reached};
ghost use Rattle.log_terms.specs.Terms.{shapes_all, weighted_of};
ghost use Rattle.log_weighted.specs.Added.{SumAdded, SumsAdded};

use arithmetic::bit_length;
use clause_set::ClauseSet;
use log_adder::{greatest_height, log_encoding_adder};
use log_adder2::{eq_greatest_height, log_encoding_adder2};
use log_linear::{Bits, push_comparison};
use log_terms::Terms;
use norm_csp::NormOp;

// How many columns the adder of one sign has, with a constant's bits.
fn adder_width(ts: &Terms<'_>, sign: bool, constant: u32) -> usize
    requires { constant < 33554432 }
    ensures { (result ≡ max (length (gather_sign sign (map weighted_of ts.now.list.now) ([] ∷ []))) (bit_length constant)) × (result ≤ 25) }
{
    let more = bit_length(constant) as usize;
    ts.width_of_sign(sign).max(more)
}

// The greatest height of a column that the adder of one sign reaches.
fn sign_height(ts: &Terms<'_>, sign: bool, constant: u32) -> u32
    requires { constant < 33554432 }
    ensures { result ≡ greatest_height (sign_reached sign (shapes_all ts.now.list.now) constant) }
{
    let cols = ts.gather_sign(sign);
    let width = adder_width(ts, sign, constant);
    greatest_height(&cols.counts[..width], constant)
}

// The sum of the terms of one sign and a constant.
fn sign_adder(set: &mut ClauseSet<'_>, ts: &Terms<'_>, sign: bool, constant: u32) -> Bits
    requires constant_bound { (constant < 33554432) × (set.old.vars ≤ 1048576) × Below (2 ^ 30 + 1) set.old }
    requires constant_value { too_tall (sign_reached sign (shapes_all ts.now.list.now) constant) ≡ false }
    ensures { SumAdded set.old (sign_adder sign (map weighted_of ts.now.list.now) constant set.old.vars) set.new result }
{
    let cols = ts.gather_sign(sign);
    let width = adder_width(ts, sign, constant);
    log_encoding_adder(set, &cols, &[], width, constant)
}

// The bits of a sum's positive and negative part.
#[derive(Clone, Copy)]
pub struct Sums {
    pub positive: Bits,
    pub negative: Bits,
}

// Ne and Ge: the positive part with the constant a, then the negative part with the constant b.
fn both_sums(set: &mut ClauseSet<'_>, ts: &Terms<'_>, a: u32, b: u32) -> Sums
    requires a_bound { (a < 33554432) × (b < 33554432) × (set.old.vars ≤ 1000000) × Below (2 ^ 24 + 1) set.old }
    requires b_value { too_tall (sign_reached false (shapes_all ts.now.list.now) a ++ sign_reached true (shapes_all ts.now.list.now) b) ≡ false }
    ensures { SumsAdded set.old (sign_adder false (map weighted_of ts.now.list.now) a set.old.vars) (sign_adder true (map weighted_of ts.now.list.now) b) set.new result }
{
    let positive = sign_adder(set, ts, false, a);
    let negative = sign_adder(set, ts, true, b);
    Sums { positive, negative }
}

// Ne or Ge of terms with the constant a - b.
fn weighted_comparison(set: &mut ClauseSet<'_>, is_ne: bool, ts: &Terms<'_>, a: u32, b: u32)
    requires a_bound { (a < 33554432) × (b < 33554432) × (set.old.vars ≤ 1000000) × Below (2 ^ 24 + 1) set.old }
    requires b_value { too_tall (sign_reached false (shapes_all ts.now.list.now) a ++ sign_reached true (shapes_all ts.now.list.now) b) ≡ false }
    ensures { AddedRule set.old (linear_compared is_ne (map weighted_of ts.now.list.now) a b set.old.vars) set.new }
{
    let s = both_sums(set, ts, a, b);
    push_comparison(set, is_ne, s.positive.as_slice(), s.negative.as_slice());
}

// Eq: what the columns and the constant a have to reach, with the constant b.
pub fn eq_target(ts: &Terms<'_>, b: u32) -> u32
    requires { b < 33554432 }
    ensures { (result ≡ b + negated_constant (map weighted_of ts.now.list.now)) × (result ≤ 301989888) }
{
    b + ts.negated_constant()
}

// The greatest height of a column that Eq reaches.
fn eq_height(ts: &Terms<'_>, a: u32, b: u32) -> u32
    requires { (a < 33554432) × (b < 33554432) }
    ensures { result ≡ greatest_height (linear_reached eq (shapes_all ts.now.list.now) a b) }
{
    let cols = ts.gather();
    let width = ts.width_of();
    let target = eq_target(ts, b);
    eq_greatest_height(
        &cols.counts[..width],
        a.saturating_sub(target),
        target.saturating_sub(a),
    )
}

// Eq without columns: an empty clause, unless x is y.
pub fn eq_constants(set: &mut ClauseSet<'_>, x: u32, y: u32)
    requires { Below (2 ^ 30 + 1) set.old }
    ensures { AddedRule set.old (eq_rule (eq_adder [] x y set.old.vars)) set.new }
{
    if x != y {
        set.push(&[]);
    }
}

// Eq of terms with the constant a - b.
fn weighted_eq(set: &mut ClauseSet<'_>, ts: &Terms<'_>, a: u32, b: u32)
    requires a_bound { (a < 33554432) × (b < 33554432) × (set.old.vars ≤ 1048576) × Below (2 ^ 30 + 1) set.old }
    requires b_value { too_tall (linear_reached eq (shapes_all ts.now.list.now) a b) ≡ false }
    ensures { AddedRule set.old (eq_rule (linear_eq (map weighted_of ts.now.list.now) a b set.old.vars)) set.new }
{
    let width = ts.width_of();
    let target = eq_target(ts, b);
    let x = a.saturating_sub(target);
    let y = target.saturating_sub(a);
    if width == 0 {
        eq_constants(set, x, y);
    } else {
        log_encoding_adder2(set, &ts.gather(), width, x, y);
    }
}

// The greatest height of a column that a sum of terms reaches.
pub fn weighted_height(op: NormOp, ts: &Terms<'_>, constant: i32) -> u32
    requires { (up constant < 33554432) × (down constant < 33554432) }
    ensures { result ≡ greatest_height (linear_reached (normalized op) (shapes_all ts.now.list.now) (up constant) (down constant)) }
{
    let a = arithmetic::up(constant);
    let b = arithmetic::down(constant);
    match op {
        NormOp::Eq => eq_height(ts, a, b),
        NormOp::Ne | NormOp::Ge => {
            let positive = sign_height(ts, false, a);
            let negative = sign_height(ts, true, b);
            positive.max(negative)
        }
    }
}

// The clauses of a sum of terms, after `encode_linear_log_from_encodings` of log.rs: its columns fit.
pub fn encode_weighted(set: &mut ClauseSet<'_>, op: NormOp, ts: &Terms<'_>, constant: i32)
    requires constant_bound { (up constant < 33554432) × (down constant < 33554432) × (set.old.vars ≤ 1000000) × Below (2 ^ 24 + 1) set.old }
    requires constant_value { too_tall (linear_reached (normalized op) (shapes_all ts.now.list.now) (up constant) (down constant)) ≡ false }
    ensures { AddedRule set.old (encode_weighted (normalized op) (map weighted_of ts.now.list.now) constant set.old.vars) set.new }
{
    let a = arithmetic::up(constant);
    let b = arithmetic::down(constant);
    match op {
        NormOp::Eq => weighted_eq(set, ts, a, b),
        NormOp::Ne => weighted_comparison(set, true, ts, a, b),
        NormOp::Ge => weighted_comparison(set, false, ts, a, b),
    }
}
