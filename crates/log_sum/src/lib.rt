// Sums over the settings' records, after `encode_linear_log` of log.rs: their literals with the coefficients, their offsets in the
// constant. A call that is lent no entries only counts.
#![tactic(auto)]

ghost use Rattle.std.specs.Prelude.{◌≡◌, false, ◌+◌, ◌*◌, ◌/◌, ◌^◌, ◌≤◌, ◌<◌, pos, ◌*ℤ◌, ◌+ℤ◌, get_or, length, map, take};
ghost use Rattle.arithmetic.specs.Integers.{down, up};
ghost use Rattle.clause_set.specs.Stores.{AddedRule, Below};
ghost use Rattle.norm_csp.specs.Operations.{normalized};
ghost use Rattle.norm_csp.specs.Rules.{terms_of};
ghost use Rattle.log_encoding.specs.AdderSize.{greatest_height, too_tall};
ghost use Rattle.log_encoding.specs.EncodeLinearLog.{encode_linear_log, offset_constant, weighted, weighted_terms};
ghost use Rattle.log_encoding.specs.LinearSize.{linear_log_reached};
ghost use Rattle.log_gather.specs.Arrays.{AllSmall};
ghost use Rattle.log_linear.specs.Added.{bits_of};
ghost use Rattle.log_var.specs.Settings.{SettingReady, shape_map_of};
ghost use Rattle.log_sum.specs.Terms.{TermReady, TermsReady};
ghost use Rattle.log_terms.specs.Terms.{TermFits, TermsFit, weighted_of};
ghost use Rattle.log_var.specs.Record.{encoding_of, int_map_of};
ghost use Rattle.sat.specs.LitArray.{num};

use arithmetic::magnitude;
use clause_set::ClauseSet;
use log_linear::Bits;
use log_terms::{Terms, Weighted};
use log_var::LogEncoding;
use log_weighted::{encode_weighted, weighted_height};
use norm_csp::NormOp;
use sat::Lit;

// Literals in the places of a term.
pub fn term_lits(lits: &[Lit]) -> Bits
    requires { (length lits.now ≤ 32) × AllSmall lits.now }
    ensures bits { (bits_of result ≡ map num lits.now) × (result.len ≡ length lits.now) }
    ensures small { (length result.lits ≡ 32) × AllSmall result.lits }
{
    let mut out = [Lit(0); 32];
    for (i, l) in lits.iter().enumerate() {
        out[i] = *l;
    }
    Bits {
        lits: out,
        len: lits.len(),
    }
}

// A setting's literals with a coefficient.
fn weighted_setting(e: &LogEncoding, coef: i32) -> Weighted
    requires setting_ready { SettingReady e.now }
    requires coef_bound { (up coef ≤ 255) × (down coef ≤ 255) }
    ensures { (weighted_of result ≡ weighted coef (encoding_of e.now).lits) × TermFits 8 result }
{
    Weighted {
        negative: coef < 0,
        coef: magnitude(coef),
        bits: term_lits(&e.lits[..e.len as usize]),
    }
}

// The setting of term i.
pub fn setting_at(terms: &[i32], i: usize) -> usize
    requires i_in_bounds { 2 * i + 1 < length terms.now }
    requires term_ready { TermReady (get_or terms.now (2 * i) (pos 0)) (get_or terms.now (2 * i + 1) (pos 0)) }
    ensures { (result ≡ up (get_or terms.now (2 * i) (pos 0))) × (result < 32) }
{
    let x = terms[2 * i];
    arithmetic::up(x) as usize
}

// The coefficient of term i.
pub fn coef_at(terms: &[i32], i: usize) -> i32
    requires { 2 * i + 1 < length terms.now }
    ensures { result ≡ get_or terms.now (2 * i + 1) (pos 0) }
{
    terms[2 * i + 1]
}

// A sum's terms by their settings' literals, as many as the list has; it has setting, coefficient, in turn.
fn weighted_terms(encodings: &[LogEncoding; 32], terms: &[i32]) -> [Weighted; 7]
    requires { TermsReady encodings.now terms.now }
    ensures { (map weighted_of (take (length terms.now / 2) result) ≡ weighted_terms (int_map_of encodings.now) (terms_of terms.now)) × TermsFit 8 (take (length terms.now / 2) result) }
{
    let none = Weighted {
        negative: false,
        coef: 0,
        bits: Bits {
            lits: [Lit(0); 32],
            len: 0,
        },
    };
    let mut ts = [none; 7];
    for i in 0..terms.len() / 2 {
        ts[i] = weighted_setting(&encodings[setting_at(terms, i)], coef_at(terms, i));
    }
    ts
}

// A coefficient times an offset, added to what is there.
fn add_offset(sum: i32, coef: i32, offset: i32) -> i32
    requires sum_bound { (up sum ≤ 16777216) × (down sum ≤ 16777216) }
    requires coef_bound { (up coef ≤ 255) × (down coef ≤ 255) × (up offset ≤ 4095) × (down offset ≤ 4095) }
    ensures { (result ≡ (coef *ℤ offset) +ℤ sum) × (up result ≤ up sum + 1044225) × (down result ≤ down sum + 1044225) }
{
    coef * offset + sum
}

// The constant plus every coefficient times its setting's offset.
pub fn offset_constant(encodings: &[LogEncoding; 32], constant: i32, terms: &[i32]) -> i32
    requires terms_ready { TermsReady encodings.now terms.now }
    requires constant_bound { (up constant ≤ 1000001) × (down constant ≤ 1000001) }
    ensures { (result ≡ offset_constant (int_map_of encodings.now) constant (terms_of terms.now)) × (up result < 33554432) × (down result < 33554432) }
{
    let mut sum = constant;
    for i in 0..terms.len() / 2 {
        let x = setting_at(terms, i);
        sum = add_offset(sum, coef_at(terms, i), encodings[x].offset);
    }
    sum
}

// The greatest height of a column that a sum over the settings' records reaches: above 12, document 01's 13.
pub fn linear_height(encodings: &[LogEncoding; 32], op: NormOp, constant: i32, terms: &[i32]) -> u32
    requires terms_ready { TermsReady encodings.now terms.now }
    requires constant_bound { (up constant ≤ 1000001) × (down constant ≤ 1000001) }
    ensures { result ≡ greatest_height (linear_log_reached (shape_map_of encodings.now) (normalized op) constant (terms_of terms.now)) }
{
    let ts = weighted_terms(encodings, terms);
    let k = offset_constant(encodings, constant, terms);
    let ts = Terms {
        list: &ts[..terms.len() / 2],
        steps: 8,
    };
    weighted_height(op, &ts, k)
}

// The clauses of a sum over the settings' records, after `encode_linear_log` of log.rs: its columns fit.
pub fn encode_linear_log(
    set: &mut ClauseSet<'_>,
    encodings: &[LogEncoding; 32],
    op: NormOp,
    constant: i32,
    terms: &[i32],
)
    requires terms_ready { TermsReady encodings.now terms.now }
    requires constant_bound { (up constant ≤ 1000001) × (down constant ≤ 1000001) × (set.old.vars ≤ 65535) × Below (2 ^ 24 + 1) set.old }
    requires terms_value { too_tall (linear_log_reached (shape_map_of encodings.now) (normalized op) constant (terms_of terms.now)) ≡ false }
    ensures { AddedRule set.old (encode_linear_log (int_map_of encodings.now) (normalized op) constant (terms_of terms.now) set.old.vars) set.new }
{
    let ts = weighted_terms(encodings, terms);
    let k = offset_constant(encodings, constant, terms);
    let ts = Terms {
        list: &ts[..terms.len() / 2],
        steps: 8,
    };
    encode_weighted(set, op, &ts, k);
}
