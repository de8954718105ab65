// Literals gathered into columns by weight. Counts run past 12 without storing: only a column that is reached is refused.
#![tactic(auto)]

ghost use Rattle.std.specs.Prelude.{◌≡◌, cond, [], eqb, length, map, max, ◌+◌, ◌*◌, ◌%◌, ◌^◌, ◌≤◌, ◌<◌};
ghost use Rattle.arithmetic.specs.Bits.{shl};
ghost use Rattle.sat.specs.Lit.{neg};
ghost use Rattle.sat.specs.LitArray.{num};
ghost use Rattle.log_adder.specs.ColumnInfo.{AllLow};
ghost use Rattle.log_encoding.specs.Gather.{push_scaled, push_value};
ghost use Rattle.log_linear.specs.Added.{bits_of};
ghost use Rattle.log_gather.specs.Arrays.{AllSmall, Arrays, Few, Holds, Pushed, widths};

use log_adder::Columns;
use log_linear::Bits;
use sat::Lit;

// Each literal into the column after that of the one before, from column `from` on.
fn push_value(cols: &mut Columns, lits: &[Lit], from: usize)
    requires lits { (from + length lits.now ≤ 32) × AllLow lits.now }
    requires arrays { Arrays cols.old × Few 4294967000 cols.old }
    ensures { Pushed (length lits.now) cols.old (push_value from (map num lits.now)) cols.new }
{
    for (j, l) in lits.iter().enumerate() {
        let w = from + j;
        let at = cols.counts[w];
        cols.counts[w] = at + 1;
        if at < 12 {
            cols.lits[w][at as usize] = *l;
        }
    }
}

// Literals by weight from column `from` on, once for each of the coefficient's bits: eight in a sum, twelve in a product with offsets,
// one in a row of a product. What they can come to has at most 32 bits.
pub fn push_scaled(cols: &mut Columns, lits: &[Lit], coef: u32, from: usize, steps: usize)
    requires steps_bound { (steps ≤ 12) × (shl (from + length lits.now) coef < 2 ^ 32) × AllLow lits.now }
    requires arrays { Arrays cols.old × Few 2147480000 cols.old }
    ensures { Pushed (length lits.now * steps) cols.old (push_scaled steps coef from (map num lits.now)) cols.new }
{
    let mut k = coef;
    for s in 0..steps {
        if k % 2 == 1 {
            push_value(cols, lits, from + s);
        }
        k /= 2;
    }
}

// No literals yet.
pub fn no_columns() -> Columns
    ensures { Arrays result × Few 0 result × Holds result [] }
{
    let lits = [[Lit(0); 12]; 32];
    let counts = [0; 32];
    Columns { lits, counts }
}

// The width after the bit of weight o.
fn width_bit(w: usize, n: usize, o: usize, k: u32) -> usize
    requires { (w ≤ 32) × (shl (o + n) k < 2 ^ 32) }
    ensures { (result ≡ cond (eqb (k % 2) 1) (max w (o + n)) w) × (result ≤ 32) }
{
    if k % 2 == 1 {
        return w.max(o + n);
    }
    w
}

// How many columns there are after `push_scaled` of n literals.
pub fn width_after(width: usize, n: usize, coef: u32, steps: usize) -> usize
    requires { (steps ≤ 12) × (width ≤ 32) × (shl n coef < 2 ^ 32) }
    ensures { (result ≡ widths steps coef 0 n width) × (result ≤ 32) }
{
    let mut w = width;
    let mut k = coef;
    for o in 0..steps {
        w = width_bit(w, n, o, k);
        k /= 2;
    }
    w
}

// Literals negated.
pub fn negate_all(lits: &[Lit]) -> Bits
    requires { (length lits.now ≤ 32) × AllSmall lits.now }
    ensures { (bits_of result ≡ map neg (map num lits.now)) × (result.len ≡ length lits.now) × AllLow result.lits }
{
    let mut out = [Lit(0); 32];
    for (i, l) in lits.iter().enumerate() {
        out[i] = !*l;
    }
    Bits {
        lits: out,
        len: lits.len(),
    }
}
