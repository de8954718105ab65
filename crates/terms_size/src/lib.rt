// The size of a sum from its terms' numbers: bit counts, coefficients and the constant. No literal is gathered.
#![tactic(auto)]

ghost use Rattle.std.specs.Prelude.{◌≡◌, false, true, ◌++◌, max, ◌≤◌, ◌<◌};
ghost use Rattle.arithmetic.specs.Bits.{bit_length};
ghost use Rattle.arithmetic.specs.Integers.{down, up};
ghost use Rattle.norm_csp.specs.NormOp.{eq};
ghost use Rattle.norm_csp.specs.Operations.{normalized};
ghost use Rattle.log_encoding.specs.LinearSize.{linear_reached, linear_size, sign_reached};
ghost use Rattle.log_counts.specs.Counted.{shapes_of};
ghost use Rattle.terms_size.specs.Measured.{ColumnsReach, Measured, compared_op, terms_size};

use adder_size::adder_size;
use arithmetic::bit_length;
use compare_size::compare_size;
use eq_size::eq_size;
use log_adder::greatest_height;
use log_adder2::eq_greatest_height;
use log_counts::{ColumnCounts, Shapes};
use log_linear::RuleCounts;
use norm_csp::NormOp;

// The columns with a constant's bits, and the greatest height that is reached.
#[derive(Clone, Copy)]
struct Columns {
    counts: ColumnCounts,
    height: u32,
}

// How many columns there are with a constant's bits.
fn adder_width(width: usize, constant: u32) -> usize
    requires { (width ≤ 25) × (constant < 33554432) }
    ensures { (result ≡ max width (bit_length constant)) × (result ≤ 25) }
{
    width.max(bit_length(constant) as usize)
}

// Ne and Ge: the columns of the terms of one sign and a constant.
fn sign_columns(ts: &Shapes<'_>, sign: bool, constant: u32) -> Columns
    requires { constant < 33554432 }
    ensures { ColumnsReach (sign_reached sign (shapes_of ts.now.list.now) constant) constant result }
{
    let mut counts = ts.sign_counts(sign);
    counts.width = adder_width(counts.width, constant);
    let height = greatest_height(counts.columns(), constant);
    Columns { counts, height }
}

// Ne or Ge of terms with the constant a - b; none where a column is above 12.
fn comparison_size(is_ne: bool, ts: &Shapes<'_>, a: u32, b: u32) -> Option<RuleCounts>
    requires { (a < 33554432) × (b < 33554432) }
    ensures { Measured 2 (sign_reached false (shapes_of ts.now.list.now) a ++ sign_reached true (shapes_of ts.now.list.now) b) (terms_size (compared_op is_ne) (shapes_of ts.now.list.now) a b) result }
{
    let p = sign_columns(ts, false, a);
    let m = sign_columns(ts, true, b);
    if 12 < p.height.max(m.height) {
        return None;
    }
    let positive = adder_size(p.counts.columns(), a);
    let negative = adder_size(m.counts.columns(), b);
    Some(compare_size(is_ne, positive, negative))
}

// Eq of terms with the constant a - b; none where a column is above 12.
pub fn equation_size(ts: &Shapes<'_>, a: u32, b: u32) -> Option<RuleCounts>
    requires { (a < 33554432) × (b < 33554432) }
    ensures { Measured 1 (linear_reached eq (shapes_of ts.now.list.now) a b) (terms_size eq (shapes_of ts.now.list.now) a b) result }
{
    let counts = ts.eq_counts();
    let columns = counts.columns();
    let target = b + ts.negated_bits();
    let x = a.saturating_sub(target);
    let y = target.saturating_sub(a);
    if eq_greatest_height(columns, x, y) <= 12 {
        Some(eq_size(columns, x, y))
    } else {
        None
    }
}

// A sum of terms with a constant.
pub fn terms_size(op: NormOp, ts: &Shapes<'_>, constant: i32) -> Option<RuleCounts>
    requires { (up constant < 33554432) × (down constant < 33554432) }
    ensures { Measured 2 (linear_reached (normalized op) (shapes_of ts.now.list.now) (up constant) (down constant)) (linear_size (normalized op) (shapes_of ts.now.list.now) constant) result }
{
    let a = arithmetic::up(constant);
    let b = arithmetic::down(constant);
    match op {
        NormOp::Eq => equation_size(ts, a, b),
        NormOp::Ne => comparison_size(true, ts, a, b),
        NormOp::Ge => comparison_size(false, ts, a, b),
    }
}
