// The multiplier, after `log_encoding_multiplier` of log.rs, and the product of numbers without offsets. A call that is lent no entries
// only counts.
#![tactic(auto)]

ghost use Rattle.std.specs.Prelude.{◌≡◌, [], ◌+◌, ◌*◌, ◌^◌, ◌≤◌, ◌<◌, get_or, length, map};
ghost use Rattle.sat.specs.Fresh.{fresh};
ghost use Rattle.sat.specs.LitArray.{num};
ghost use Rattle.clause_set.specs.Stores.{Added, AddedRule, Below, Wrote};
ghost use Rattle.log_adder.specs.ColumnInfo.{AllLow};
ghost use Rattle.log_encoding.specs.AdderSize.{greatest_height, input_shapes, pad_shapes, reached};
ghost use Rattle.log_linear.specs.Added.{bits_of};
ghost use Rattle.log_mul.specs.Bits.{BitAdded, BitsLeft, ProductNumbered};
ghost use Rattle.log_mul.specs.Added.{MultiplierAdded, MultiplierReady, RowsGathered, RowsWritten};
ghost use Rattle.log_encoding.specs.Multiply.{and_gate, multiplier, product, row};
ghost use Rattle.log_encoding.specs.MulSize.{multiplier_reached, rows_counts};

use clause_set::ClauseSet;
use log_adder::{Columns, greatest_height, log_encoding_adder};
use log_gather::{no_columns, push_scaled};
use log_linear::{Bits, none_of};
use sat::{Lit, Var};

// The literals of a product's bits, and the variables counted after it.
#[derive(Clone, Copy)]
pub struct ProductBits {
    pub bits: Bits,
    pub vars: u32,
}

// The literals of a sum's bits so far, the variables counted, and how many the carry has.
#[derive(Clone, Copy)]
struct BitsState {
    bits: Bits,
    vars: u32,
    carry: u32,
}

// m is x and y.
fn and_gate(set: &mut ClauseSet<'_>, m: Lit, x: Lit, y: Lit)
    requires { Below (2 ^ 30 + 2 ^ 29) set.old }
    ensures { Added set.old (and_gate m.0 x.0 y.0) set.new }
{
    set.push(&[!m, x]);
    set.push(&[!m, y]);
    set.push(&[!x, !y, m]);
}

// x and each of y's bits, in new variables.
fn push_row(set: &mut ClauseSet<'_>, x: Lit, ys: &[Lit])
    requires { (length ys.now ≤ 12) × (set.old.vars ≤ 2 ^ 29) × Below (2 ^ 30 + 1) set.old }
    ensures { Wrote set.old (set.old.vars + length ys.now) (row x.0 (map num ys.now) set.old.vars) set.new }
{
    for y in ys {
        let m = set.new_lit();
        and_gate(set, m, x, *y);
    }
}

// Each of x's bits and each of y's: x's outer, y's inner.
fn push_all_rows(set: &mut ClauseSet<'_>, xs: &[Lit], ys: &[Lit])
    requires { (length xs.now ≤ 12) × (length ys.now ≤ 12) × (set.old.vars ≤ 1000000) × Below (2 ^ 29 + 1) set.old }
    ensures { RowsWritten set.old (map num xs.now) (map num ys.now) set.new }
{
    for x in xs {
        push_row(set, *x, ys);
    }
}

// The literals of n consecutive variables.
fn consecutive(v: u32, n: usize) -> Bits
    requires { (n ≤ 32) × (v ≤ 2 ^ 29) }
    ensures { (bits_of result ≡ fresh n v) × (result.len ≡ n) × AllLow result.lits }
{
    let mut lits = [Lit(0); 32];
    for j in 0..n {
        lits[j] = Var(v + j as u32).as_lit(false);
    }
    Bits { lits, len: n }
}

// The rows of x by y bits in columns, row i from column i on; their variables are consecutive.
fn gather_rows(x: usize, y: usize, vars: u32) -> Columns
    requires { (x ≤ 12) × (y ≤ 12) × (vars ≤ 1000000) }
    ensures { RowsGathered x y vars result }
{
    let mut cols = no_columns();
    let mut v = vars;
    for i in 0..x {
        let row = consecutive(v, y);
        push_scaled(&mut cols, row.as_slice(), 1, i, 1);
        v += y as u32;
    }
    cols
}

// How many columns there are: those of the rows, and at least as many as there are results given.
fn multiplier_width(x: usize, y: usize, given: usize) -> usize
    requires { (x ≤ 12) × (y ≤ 12) × (given ≤ 12) }
    ensures { (result ≡ length (pad_shapes given (rows_counts x y 0 []))) × (result ≤ 23) × (given ≤ result) }
{
    if x == 0 {
        return given;
    }
    (x - 1 + y).max(given)
}

// The greatest height of a column that the multiplier of x by y bits reaches.
pub fn multiplier_height(x: usize, y: usize, given: usize) -> u32
    requires { (x ≤ 12) × (y ≤ 12) × (given ≤ 12) }
    ensures { result ≡ greatest_height (multiplier_reached x y given) }
{
    let cols = gather_rows(x, y, 0);
    let width = multiplier_width(x, y, given);
    greatest_height(cols.first_counts(width), 0)
}

// The next bit of a sum, of a column with so many own literals: its carry's variables come first.
fn next_bit(s: BitsState, own: u32) -> BitsState
    requires { (s.bits.len < 32) × (s.vars ≤ 2 ^ 29) × (s.carry ≤ 144) × (own ≤ 144) }
    ensures { BitAdded own s result }
{
    let next = (own + s.carry) / 2;
    let v = s.vars + next;
    let len = s.bits.len;
    let mut lits = s.bits.lits;
    lits[len] = Var(v).as_lit(false);
    BitsState {
        bits: Bits { lits, len: len + 1 },
        vars: v + 1,
        carry: next,
    }
}

// The literals of a sum's bits where none is given, and the variables after them: they follow from the columns' counts.
fn sum_bits(counts: &[u32], vars: u32) -> BitsState
    requires counts { (length counts.now ≤ 23) × ((i : _) → get_or counts.now i 0 ≤ 144) }
    requires vars_bound { vars ≤ 2 ^ 28 }
    requires few { length (reached (input_shapes (length counts.now) 0 counts.now 0) 0) ≤ 24 }
    ensures { BitsLeft (reached (input_shapes (length counts.now) 0 counts.now 0) 0) vars [] result }
{
    let mut s = BitsState {
        bits: Bits {
            lits: [Lit(0); 32],
            len: 0,
        },
        vars,
        carry: 0,
    };
    for own in counts {
        s = next_bit(s, *own);
    }
    while s.carry > 0 {
        s = next_bit(s, 0);
    }
    s
}

// The literals of the bits of a product of x by y bits where none is given, and the variables after them, as the multiplier has them.
pub fn product_bits(x: usize, y: usize, vars: u32) -> ProductBits
    requires { (x ≤ 12) × (y ≤ 12) × (vars ≤ 1000000) }
    ensures { ProductNumbered x y vars result }
{
    let cols = gather_rows(x, y, 0);
    let width = multiplier_width(x, y, 0);
    let s = sum_bits(cols.first_counts(width), vars + x as u32 * y as u32);
    ProductBits {
        bits: s.bits,
        vars: s.vars,
    }
}

// The multiplier: the product's bits, of which the first are given in m.
pub fn log_encoding_multiplier(set: &mut ClauseSet<'_>, x: &[Lit], y: &[Lit], m: &[Lit]) -> Bits
    requires { MultiplierReady x.now y.now m.now set.old }
    ensures { MultiplierAdded set.old (multiplier (map num x.now) (map num y.now) (map num m.now) set.old.vars) set.new result }
{
    let first = set.vars;
    push_all_rows(set, x, y);
    let cols = gather_rows(x.len(), y.len(), first);
    let width = multiplier_width(x.len(), y.len(), m.len());
    log_encoding_adder(set, &cols, m, width, 0)
}

// Without offsets: x times y is m. The product's bits are m's literals, and those past them are 0.
pub fn encode_product(set: &mut ClauseSet<'_>, x: &[Lit], y: &[Lit], m: &[Lit])
    requires { MultiplierReady x.now y.now m.now set.old }
    ensures { AddedRule set.old (product (map num x.now) (map num y.now) (map num m.now) set.old.vars) set.new }
{
    let bits = log_encoding_multiplier(set, x, y, m);
    none_of(set, bits.rest(m.len()));
}
