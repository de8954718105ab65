// Products, after `encode_mul_log` of log.rs: with offsets, Eq over the multiplier's bits and the numbers themselves. A call that is lent
// no entries only counts.
#![tactic(auto)]

ghost use Rattle.std.specs.Prelude.{◌≡◌, ◌&&◌, false, [], ◌+◌, ◌^◌, ◌≤◌, ◌<◌, ◌*ℤ◌, ◌-ℤ◌, length, map};
ghost use Rattle.arithmetic.specs.Bits.{shl};
ghost use Rattle.arithmetic.specs.Integers.{down, up};
ghost use Rattle.sat.specs.LitArray.{num};
ghost use Rattle.clause_set.specs.Stores.{AddedRule, Below};
ghost use Rattle.log_var.specs.Record.{encoding_of, int_map_of, lits_of};
ghost use Rattle.log_encoding.specs.VarSize.{setting_shape};
ghost use Rattle.log_encoding.specs.Adder2.{eq_adder};
ghost use Rattle.log_encoding.specs.AdderSize.{greatest_height, too_tall};
ghost use Rattle.log_gather.specs.Arrays.{AllSmall};
ghost use Rattle.log_linear.specs.Added.{bits_of};
ghost use Rattle.log_encoding.specs.EncodeLinearLog.{weighted};
ghost use Rattle.log_encoding.specs.Linear.{gather};
ghost use Rattle.log_terms.specs.Terms.{TermFits, TermsFit, weighted_of};
ghost use Rattle.log_var.specs.Settings.{SettingReady, shape_map_of};
ghost use Rattle.log_encoding.specs.EncodeMulLog.{encode_mul, encode_mul_log, is_zero, offset_terms, product_with_offsets};
ghost use Rattle.log_encoding.specs.Multiply.{multiplier};
ghost use Rattle.log_encoding.specs.MulSize.{mul_reached, offsets_reached};
ghost use Rattle.log_product.specs.Ready.{BitsReady, ColumnsReady, EqInputReady, FactorsReady, ProductReady, ProductsReady, multiply_then};

use arithmetic::magnitude;
use clause_set::ClauseSet;
use log_adder2::{EqInput, order_carries, push_returned_set};
use log_linear::Bits;
use log_mul::{encode_product, log_encoding_multiplier, multiplier_height, product_bits};
use log_sum::term_lits;
use log_terms::{Terms, Weighted};
use log_var::LogEncoding;
use log_weighted::{eq_constants, eq_target, weighted_height};
use norm_csp::NormOp;
use sat::Lit;

// A setting's literals, the lowest first.
fn setting_bits(e: &LogEncoding) -> Bits
    requires { SettingReady e.now }
    ensures { BitsReady (lits_of e.now) result }
{
    term_lits(&e.lits[..e.len as usize])
}

// Literals with a coefficient of at most twelve bits.
fn weighted_bits(bits: Bits, coef: i32) -> Weighted
    requires len_bound { (bits.len ≤ 24) × (length bits.lits ≡ 32) × AllSmall bits.lits }
    requires coef_bound { (up coef ≤ 4095) × (down coef ≤ 4095) × (shl bits.len (up coef + down coef) < 33554432) }
    ensures { (weighted_of result ≡ weighted coef (bits_of bits)) × TermFits 12 result }
{
    Weighted {
        negative: coef < 0,
        coef: magnitude(coef),
        bits,
    }
}

// Over codes, (x + x_ofs) (y + y_ofs) = m + m_ofs says that x y + y_ofs x + x_ofs y - m and a constant are 0: its terms. xy are the bits of x y.
fn offset_terms(x: &LogEncoding, y: &LogEncoding, m: &LogEncoding, xy: Bits) -> [Weighted; 4]
    requires setting_ready { SettingReady x.now × SettingReady y.now × SettingReady m.now }
    requires len_bound { (xy.len ≤ 24) × (length xy.lits ≡ 32) × AllSmall xy.lits }
    ensures { (map weighted_of result ≡ offset_terms (encoding_of x.now) (encoding_of y.now) (encoding_of m.now) (bits_of xy)) × TermsFit 12 result }
{
    let product = weighted_bits(xy, 1);
    let by_x = weighted_bits(setting_bits(x), y.offset);
    let by_y = weighted_bits(setting_bits(y), x.offset);
    let by_m = weighted_bits(setting_bits(m), -1);
    [product, by_x, by_y, by_m]
}

// That constant: x_ofs y_ofs - m_ofs.
pub fn mul_constant(x: i32, y: i32, m: i32) -> i32
    requires { (up x ≤ 4095) × (down x ≤ 4095) × (up y ≤ 4095) × (down y ≤ 4095) × (up m ≤ 4095) × (down m ≤ 4095) }
    ensures { (result ≡ (x *ℤ y) -ℤ m) × (up result < 33554432) × (down result < 33554432) }
{
    x * y - m
}

// Eq over the terms with a constant: how many columns, and what they have to reach.
fn eq_input(ts: &Terms<'_>, constant: i32, vars: u32) -> EqInput
    requires { (up constant < 33554432) × (down constant < 33554432) }
    ensures { EqInputReady (map weighted_of ts.now.list.now) (up constant) (down constant) vars result }
{
    let a = arithmetic::up(constant);
    let target = eq_target(ts, arithmetic::down(constant));
    EqInput {
        width: ts.width_of(),
        x: a.saturating_sub(target),
        y: target.saturating_sub(a),
        vars,
    }
}

// Eq without columns: the multiplier's clauses, and an empty clause, unless the constants agree.
fn product_without_columns(set: &mut ClauseSet<'_>, x: &[Lit], y: &[Lit], g: EqInput)
    requires factors_ready { FactorsReady x.now y.now set.old }
    requires vars { g.vars ≡ (multiplier (map num x.now) (map num y.now) [] set.old.vars).vars }
    ensures { AddedRule set.old (multiply_then (multiplier (map num x.now) (map num y.now) [] set.old.vars) (eq_adder [] g.x g.y g.vars)) set.new }
{
    log_encoding_multiplier(set, x, y, &[]);
    eq_constants(set, g.x, g.y);
}

// Eq with columns: its ordering clauses, the multiplier's clauses, its returned set. Its variables come behind the multiplier's.
fn product_with_columns(set: &mut ClauseSet<'_>, ts: &Terms<'_>, x: &[Lit], y: &[Lit], g: EqInput)
    requires factors_ready { FactorsReady x.now y.now set.old }
    requires columns_ready { ColumnsReady (gather (map weighted_of ts.now.list.now) []) g }
    ensures { AddedRule set.old (multiply_then (multiplier (map num x.now) (map num y.now) [] set.old.vars) (eq_adder (gather (map weighted_of ts.now.list.now) []) g.x g.y g.vars)) set.new }
{
    let first = set.vars;
    let cols = ts.gather();
    set.vars = g.vars;
    let carry = order_carries(set, cols.first_counts(g.width), g.x, g.y);
    let last = set.vars;
    set.vars = first;
    log_encoding_multiplier(set, x, y, &[]);
    set.vars = last;
    push_returned_set(set, &cols, g, carry);
}

// A product where an offset is not 0.
fn product_with_offsets(set: &mut ClauseSet<'_>, x: &LogEncoding, y: &LogEncoding, m: &LogEncoding)
    requires product_ready { ProductReady x.now y.now m.now set.old }
    requires heights { too_tall (offsets_reached (setting_shape (encoding_of x.now)) (setting_shape (encoding_of y.now)) (setting_shape (encoding_of m.now))) ≡ false }
    ensures { AddedRule set.old (product_with_offsets (encoding_of x.now) (encoding_of y.now) (encoding_of m.now) set.old.vars) set.new }
{
    let xs = setting_bits(x);
    let ys = setting_bits(y);
    let xy = product_bits(xs.len, ys.len, set.vars);
    let ts = offset_terms(x, y, m, xy.bits);
    let ts = Terms {
        list: &ts,
        steps: 12,
    };
    let k = mul_constant(x.offset, y.offset, m.offset);
    let g = eq_input(&ts, k, xy.vars);
    if g.width == 0 {
        product_without_columns(set, xs.as_slice(), ys.as_slice(), g);
    } else {
        product_with_columns(set, &ts, xs.as_slice(), ys.as_slice(), g);
    }
}

// Whether all three offsets are 0.
pub fn offsets_zero(x: i32, y: i32, m: i32) -> bool
    ensures { result ≡ is_zero x && (is_zero y && is_zero m) }
{
    x == 0 && y == 0 && m == 0
}

// A product of three records.
fn encode_mul(set: &mut ClauseSet<'_>, x: &LogEncoding, y: &LogEncoding, m: &LogEncoding)
    requires product_ready { ProductReady x.now y.now m.now set.old }
    requires heights { too_tall (mul_reached (setting_shape (encoding_of x.now)) (setting_shape (encoding_of y.now)) (setting_shape (encoding_of m.now))) ≡ false }
    ensures { AddedRule set.old (encode_mul (encoding_of x.now) (encoding_of y.now) (encoding_of m.now) set.old.vars) set.new }
{
    if offsets_zero(x.offset, y.offset, m.offset) {
        let xs = setting_bits(x);
        let ys = setting_bits(y);
        let ms = setting_bits(m);
        encode_product(set, xs.as_slice(), ys.as_slice(), ms.as_slice());
    } else {
        product_with_offsets(set, x, y, m);
    }
}

// The clauses of a product over the settings' records, after `encode_mul_log` of log.rs: its columns fit.
pub fn encode_mul_log(
    set: &mut ClauseSet<'_>,
    encodings: &[LogEncoding; 32],
    x: u32,
    y: u32,
    m: u32,
)
    requires products_ready { ProductsReady encodings.now x y m }
    requires vars_bound { (set.old.vars ≤ 65535) × Below (2 ^ 24 + 1) set.old }
    requires heights { too_tall (mul_reached (shape_map_of encodings.now x) (shape_map_of encodings.now y) (shape_map_of encodings.now m)) ≡ false }
    ensures { AddedRule set.old (encode_mul_log (int_map_of encodings.now) x y m set.old.vars) set.new }
{
    let ex = &encodings[x as usize];
    let ey = &encodings[y as usize];
    let em = &encodings[m as usize];
    encode_mul(set, ex, ey, em);
}

// With offsets: the greatest height of a column that the multiplier or Eq reaches.
fn offsets_height(x: &LogEncoding, y: &LogEncoding, m: &LogEncoding) -> u32
    requires { SettingReady x.now × SettingReady y.now × SettingReady m.now }
    ensures { result ≡ greatest_height (offsets_reached (setting_shape (encoding_of x.now)) (setting_shape (encoding_of y.now)) (setting_shape (encoding_of m.now))) }
{
    let xs = setting_bits(x);
    let ys = setting_bits(y);
    let own = multiplier_height(xs.len, ys.len, 0);
    let xy = product_bits(xs.len, ys.len, 0);
    let ts = offset_terms(x, y, m, xy.bits);
    let ts = Terms {
        list: &ts,
        steps: 12,
    };
    let k = mul_constant(x.offset, y.offset, m.offset);
    own.max(weighted_height(NormOp::Eq, &ts, k))
}

// The greatest height of a column that a product of three records reaches.
fn records_height(x: &LogEncoding, y: &LogEncoding, m: &LogEncoding) -> u32
    requires { SettingReady x.now × SettingReady y.now × SettingReady m.now }
    ensures { result ≡ greatest_height (mul_reached (setting_shape (encoding_of x.now)) (setting_shape (encoding_of y.now)) (setting_shape (encoding_of m.now))) }
{
    if offsets_zero(x.offset, y.offset, m.offset) {
        let xs = setting_bits(x);
        let ys = setting_bits(y);
        let ms = setting_bits(m);
        return multiplier_height(xs.len, ys.len, ms.len);
    }
    offsets_height(x, y, m)
}

// The greatest height of a column that a product over the settings' records reaches: above 12, document 01's 13.
pub fn mul_height(encodings: &[LogEncoding; 32], x: u32, y: u32, m: u32) -> u32
    requires { ProductsReady encodings.now x y m }
    ensures { result ≡ greatest_height (mul_reached (shape_map_of encodings.now x) (shape_map_of encodings.now y) (shape_map_of encodings.now m)) }
{
    let ex = &encodings[x as usize];
    let ey = &encodings[y as usize];
    let em = &encodings[m as usize];
    records_height(ex, ey, em)
}
