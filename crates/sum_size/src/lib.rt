// The size of a sum over the settings' records, of all six operations, from bit counts, offsets, coefficients and the constant.
#![tactic(auto)]

ghost use Rattle.std.specs.Prelude.{◌≡◌, ◌+◌, ◌/◌, ◌≤◌, ◌<◌, length, take};
ghost use Rattle.arithmetic.specs.Bits.{shl};
ghost use Rattle.arithmetic.specs.Integers.{down, up};
ghost use Rattle.norm_csp.specs.Operations.{compared, normalized};
ghost use Rattle.norm_csp.specs.Rules.{terms_of};
ghost use Rattle.log_encoding.specs.LinearSize.{linear_log_reached, linear_log_size, term_shapes, weighted_shape};
ghost use Rattle.log_encoding.specs.Turned.{turned_reached};
ghost use Rattle.log_encoding.specs.VarSize.{setting_shape};
ghost use Rattle.log_var.specs.Record.{encoding_of};
ghost use Rattle.log_var.specs.Settings.{SettingReady, shape_map_of};
ghost use Rattle.log_sum.specs.Terms.{TermsReady};
ghost use Rattle.log_counts.specs.Counted.{ShapeFits, ShapesFit, shapes_of, term_shape};
ghost use Rattle.terms_size.specs.Measured.{Measured};
ghost use Rattle.sum_size.specs.Shapes.{ShapeReady, numbers_of, turned_size};

use log_counts::{Shapes, TermShape};
use log_linear::RuleCounts;
use log_sum::{coef_at, offset_constant, setting_at};
use log_turned::turned;
use log_var::LogEncoding;
use norm_csp::{CmpOp, NormOp};
use terms_size::terms_size;

// The numbers of a setting: how many bits it has, and its offset.
#[derive(Clone, Copy)]
pub struct SettingShape {
    pub bits: usize,
    pub offset: i32,
}

// Those of a record.
pub fn setting_shape(e: LogEncoding) -> SettingShape
    requires { SettingReady e }
    ensures { (numbers_of result ≡ setting_shape (encoding_of e)) × ShapeReady result }
{
    SettingShape {
        bits: e.len as usize,
        offset: e.offset,
    }
}

// A number of so many bits with a coefficient.
pub fn term_shape(coef: i32, bits: usize) -> TermShape
    requires { (up coef ≤ 4095) × (down coef ≤ 4095) × (shl bits (up coef + down coef) < 33554432) }
    ensures { (term_shape result ≡ weighted_shape coef bits) × ShapeFits result }
{
    TermShape {
        negative: coef < 0,
        coef: coef.unsigned_abs(),
        bits,
    }
}

// The terms of a sum, as many as the list has; it has setting, coefficient, in turn.
fn term_shapes(encodings: &[LogEncoding; 32], terms: &[i32]) -> [TermShape; 7]
    requires { TermsReady encodings.now terms.now }
    ensures { (shapes_of (take (length terms.now / 2) result) ≡ term_shapes (shape_map_of encodings.now) (terms_of terms.now)) × ShapesFit (take (length terms.now / 2) result) }
{
    let mut ts = [TermShape::default(); 7];
    for i in 0..terms.len() / 2 {
        let x = setting_at(terms, i);
        let s = setting_shape(encodings[x]);
        ts[i] = term_shape(coef_at(terms, i), s.bits);
    }
    ts
}

// A sum of Eq, Ne or Ge; none where a column is above 12.
fn linear_size(
    encodings: &[LogEncoding; 32],
    op: NormOp,
    constant: i32,
    terms: &[i32],
) -> Option<RuleCounts>
    requires terms_ready { TermsReady encodings.now terms.now }
    requires constant_bound { (up constant ≤ 1000001) × (down constant ≤ 1000001) }
    ensures { Measured 2 (linear_log_reached (shape_map_of encodings.now) (normalized op) constant (terms_of terms.now)) (linear_log_size (shape_map_of encodings.now) (normalized op) constant (terms_of terms.now)) result }
{
    let ts = term_shapes(encodings, terms);
    let k = offset_constant(encodings, constant, terms);
    let ts = Shapes {
        list: &ts[..terms.len() / 2],
    };
    terms_size(op, &ts, k)
}

// A sum of any operation; none where a column is above 12.
pub fn turned_size(
    encodings: [LogEncoding; 32],
    op: CmpOp,
    constant: i32,
    terms: &[i32],
) -> Option<RuleCounts>
    requires terms_ready { TermsReady encodings terms.now }
    requires constant_bound { (up constant ≤ 1000000) × (down constant ≤ 1000000) }
    ensures { Measured 2 (turned_reached (shape_map_of encodings) (compared op) constant (terms_of terms.now)) (turned_size (shape_map_of encodings) (compared op) constant (terms_of terms.now)) result }
{
    let t = turned(op, constant, terms);
    linear_size(&encodings, t.op, t.constant, &t.terms[..terms.len()])
}
