// Sums of all six operations over the settings' records (document 02, #102): Le, Lt and Gt are turned to Ge, after `normalized` in
// `encode_constraint` of encoder/mod.rs. A call that is lent no entries only counts.
#![tactic(auto)]

ghost use Rattle.std.specs.Prelude.{◌≡◌, false, ◌+◌, ◌%◌, ◌^◌, ◌≤◌, length, take};
ghost use Rattle.arithmetic.specs.Integers.{down, up};
ghost use Rattle.clause_set.specs.Stores.{AddedRule, Below};
ghost use Rattle.norm_csp.specs.Operations.{compared};
ghost use Rattle.norm_csp.specs.Rules.{terms_of};
ghost use Rattle.log_encoding.specs.AdderSize.{greatest_height, too_tall};
ghost use Rattle.log_encoding.specs.Turned.{encode_turned, turned_reached};
ghost use Rattle.log_sum.specs.Terms.{TermsReady};
ghost use Rattle.log_var.specs.Record.{int_map_of};
ghost use Rattle.log_var.specs.Settings.{shape_map_of};
ghost use Rattle.log_turned.specs.Turning.{CoefsSmall, Summed, Turns, entry_of, signed_terms};

use clause_set::ClauseSet;
use log_sum::{encode_linear_log, linear_height};
use log_var::LogEncoding;
use norm_csp::{CmpOp, NormOp};

// A sum of Eq, Ne or Ge, after `LinearLit` of norm_csp/mod.rs: operation, constant, and terms in the first places.
#[derive(Clone, Copy)]
pub struct LinearLit {
    pub op: NormOp,
    pub constant: i32,
    pub terms: [i32; 12],
}

// Entry i of a call's terms: a coefficient negated or not, a setting as it is.
fn entry(negate: bool, i: usize, x: i32) -> i32
    requires { i % 2 ≡ 1 → (up x ≤ 255) × (down x ≤ 255) }
    ensures { result ≡ entry_of negate i x }
{
    if negate && i % 2 == 1 { -x } else { x }
}

// A call's terms, the coefficients negated or not.
fn signed_terms(negate: bool, terms: &[i32]) -> [i32; 12]
    requires { CoefsSmall terms.now }
    ensures { (take (length terms.now) result ≡ signed_terms negate terms.now) × (length result ≡ 12) }
{
    let mut out = [0; 12];
    for (i, x) in terms.iter().enumerate() {
        out[i] = entry(negate, i, *x);
    }
    out
}

// A sum of Eq, Ne or Ge over a call's terms, the coefficients negated or not.
fn sum(op: NormOp, constant: i32, negate: bool, terms: &[i32]) -> LinearLit
    requires { CoefsSmall terms.now }
    ensures { Summed op constant negate terms.now result }
{
    LinearLit {
        op,
        constant,
        terms: signed_terms(negate, terms),
    }
}

// The sum of Eq, Ne or Ge that stands for a sum of any operation.
pub fn turned(op: CmpOp, constant: i32, terms: &[i32]) -> LinearLit
    requires coefs_small { CoefsSmall terms.now }
    requires constant_bound { (up constant ≤ 1000000) × (down constant ≤ 1000000) }
    ensures { Turns (compared op) constant terms.now result }
{
    match op {
        CmpOp::Eq => sum(NormOp::Eq, constant, false, terms),
        CmpOp::Ne => sum(NormOp::Ne, constant, false, terms),
        CmpOp::Ge => sum(NormOp::Ge, constant, false, terms),
        CmpOp::Le => sum(NormOp::Ge, -constant, true, terms),
        CmpOp::Lt => sum(NormOp::Ge, -(constant + 1), true, terms),
        CmpOp::Gt => sum(NormOp::Ge, constant - 1, false, terms),
    }
}

// The greatest height of a column that a sum reaches: above 12, document 01's 13.
pub fn turned_height(encodings: &[LogEncoding; 32], op: CmpOp, constant: i32, terms: &[i32]) -> u32
    requires terms_ready { TermsReady encodings.now terms.now }
    requires constant_bound { (up constant ≤ 1000000) × (down constant ≤ 1000000) }
    ensures { result ≡ greatest_height (turned_reached (shape_map_of encodings.now) (compared op) constant (terms_of terms.now)) }
{
    let t = turned(op, constant, terms);
    linear_height(encodings, t.op, t.constant, &t.terms[..terms.len()])
}

// The clauses of a sum: its columns fit.
pub fn encode_turned(
    set: &mut ClauseSet<'_>,
    encodings: &[LogEncoding; 32],
    op: CmpOp,
    constant: i32,
    terms: &[i32],
)
    requires terms_ready { TermsReady encodings.now terms.now }
    requires constant_bound { (up constant ≤ 1000000) × (down constant ≤ 1000000) × (set.old.vars ≤ 65535) × Below (2 ^ 24 + 1) set.old }
    requires terms_value { too_tall (turned_reached (shape_map_of encodings.now) (compared op) constant (terms_of terms.now)) ≡ false }
    ensures { AddedRule set.old (encode_turned (int_map_of encodings.now) (compared op) constant (terms_of terms.now) set.old.vars) set.new }
{
    let t = turned(op, constant, terms);
    encode_linear_log(set, encodings, t.op, t.constant, &t.terms[..terms.len()]);
}
