// The size of a product from its settings' bit counts and offsets. No literal is gathered.
#![tactic(auto)]

ghost use Rattle.std.specs.Prelude.{◌≡◌, true, ◌≤◌};
ghost use Rattle.log_encoding.specs.MulSize.{mul_reached, mul_size, multiplier_reached, offset_shapes, offsets_reached};
ghost use Rattle.log_product.specs.Ready.{ProductsReady};
ghost use Rattle.log_var.specs.Settings.{shape_map_of};
ghost use Rattle.log_counts.specs.Counted.{ShapesFit, shapes_of};
ghost use Rattle.terms_size.specs.Measured.{Measured};
ghost use Rattle.sum_size.specs.Shapes.{ShapeReady, numbers_of};
ghost use Rattle.product_size.specs.Multiplied.{Multiplied, OffsetsEquation, ProductLong, offsets_size, plain_size};

use adder_size::adder_size;
use clause_set::Counts;
use column_walk::plus;
use log_adder::greatest_height;
use log_counts::{Shapes, TermShape, row_counts};
use log_linear::RuleCounts;
use log_product::{mul_constant, offsets_zero};
use log_var::LogEncoding;
use sum_size::{SettingShape, setting_shape, term_shape};
use terms_size::equation_size;

// What a multiplier takes, and how many bits the product has.
#[derive(Clone, Copy)]
struct MultiplierSize {
    bits: u32,
    vars: u32,
    used: Counts,
}

// The multiplier of x by y bits, of whose product's bits `given` are given: an and-gate for each pair of bits, then the adder. None where a
// column is above 12.
fn multiplier_size(x: usize, y: usize, given: usize) -> Option<MultiplierSize>
    requires { (x ≤ 12) × (y ≤ 12) × (given ≤ 12) }
    ensures { Multiplied x y given result }
{
    let c = row_counts(x, y);
    let counts = c.counts;
    let width = c.width.max(given);
    let columns = &counts[..width];
    if 12 < greatest_height(columns, 0) {
        return None;
    }
    let s = adder_size(columns, 0);
    let pairs = x * y;
    let gates = Counts {
        clauses: pairs * 3,
        lits: pairs * 7,
    };
    Some(MultiplierSize {
        bits: s.bits,
        vars: pairs as u32 + (s.carries + s.bits.saturating_sub(given as u32)),
        used: plus(gates, s.used),
    })
}

// Without offsets, from the bits of x, y and m: the product's bits past m's have a one-literal clause each.
fn plain_size(x: usize, y: usize, m: usize) -> Option<RuleCounts>
    requires { (x ≤ 12) × (y ≤ 12) × (m ≤ 12) }
    ensures { Measured 2 (multiplier_reached x y m) (plain_size x y m) result }
{
    let s = multiplier_size(x, y, m)?;
    let over = s.bits.saturating_sub(m as u32) as usize;
    let units = Counts {
        clauses: over,
        lits: over,
    };
    Some(RuleCounts {
        vars: s.vars,
        used: plus(s.used, units),
    })
}

// With offsets: the terms of Eq, over a product of so many bits.
fn offset_shapes(x: SettingShape, y: SettingShape, m: SettingShape, bits: usize) -> [TermShape; 4]
    requires shape_ready { ShapeReady x × ShapeReady y × ShapeReady m }
    requires product_long { ProductLong x.bits y.bits bits }
    ensures { (shapes_of result ≡ offset_shapes (numbers_of x) (numbers_of y) (numbers_of m)) × ShapesFit result }
{
    let product = term_shape(1, bits);
    let by_x = term_shape(y.offset, x.bits);
    let by_y = term_shape(x.offset, y.bits);
    let by_m = term_shape(-1, m.bits);
    [product, by_x, by_y, by_m]
}

// With offsets: Eq over the product's bits and the numbers themselves.
fn offsets_equation(
    x: SettingShape,
    y: SettingShape,
    m: SettingShape,
    bits: usize,
) -> Option<RuleCounts>
    requires shape_ready { ShapeReady x × ShapeReady y × ShapeReady m }
    requires product_long { ProductLong x.bits y.bits bits }
    ensures { OffsetsEquation (numbers_of x) (numbers_of y) (numbers_of m) result }
{
    let ts = offset_shapes(x, y, m, bits);
    let ts = Shapes { list: &ts };
    let k = mul_constant(x.offset, y.offset, m.offset);
    equation_size(&ts, arithmetic::up(k), arithmetic::down(k))
}

// With offsets: the multiplier, then that Eq.
fn offsets_size(x: SettingShape, y: SettingShape, m: SettingShape) -> Option<RuleCounts>
    requires { ShapeReady x × ShapeReady y × ShapeReady m }
    ensures { Measured 2 (offsets_reached (numbers_of x) (numbers_of y) (numbers_of m)) (offsets_size (numbers_of x) (numbers_of y) (numbers_of m)) result }
{
    let s = multiplier_size(x.bits, y.bits, 0)?;
    let sum = offsets_equation(x, y, m, s.bits as usize)?;
    Some(RuleCounts {
        vars: s.vars + sum.vars,
        used: plus(s.used, sum.used),
    })
}

// A product of settings by their numbers.
fn shapes_size(x: SettingShape, y: SettingShape, m: SettingShape) -> Option<RuleCounts>
    requires { ShapeReady x × ShapeReady y × ShapeReady m }
    ensures { Measured 2 (mul_reached (numbers_of x) (numbers_of y) (numbers_of m)) (mul_size (numbers_of x) (numbers_of y) (numbers_of m)) result }
{
    if offsets_zero(x.offset, y.offset, m.offset) {
        return plain_size(x.bits, y.bits, m.bits);
    }
    offsets_size(x, y, m)
}

// A product over the settings' records.
pub fn mul_size(encodings: [LogEncoding; 32], x: u32, y: u32, m: u32) -> Option<RuleCounts>
    requires { ProductsReady encodings x y m }
    ensures { Measured 2 (mul_reached (shape_map_of encodings x) (shape_map_of encodings y) (shape_map_of encodings m)) (mul_size (shape_map_of encodings x) (shape_map_of encodings y) (shape_map_of encodings m)) result }
{
    let ex = encodings[x as usize];
    let ey = encodings[y as usize];
    let em = encodings[m as usize];
    shapes_size(setting_shape(ex), setting_shape(ey), setting_shape(em))
}
