// How many literals each column gets, from bit counts and coefficients alone: of the terms of a sum, and of the rows of a product.
#![tactic(auto)]

ghost use Rattle.std.specs.Prelude.{◌≡◌, Bool, [], ◌∷◌, ◌+◌, ◌-◌, ◌*◌, ◌≤◌, ◌<◌, replicate, take};
ghost use Rattle.arithmetic.specs.Bits.{shl};
ghost use Rattle.log_encoding.specs.AdderSize.{push_counts, push_scaled_counts};
ghost use Rattle.log_encoding.specs.LinearSize.{gather_counts, negated_bits, sign_counts};
ghost use Rattle.log_encoding.specs.MulSize.{rows_counts};
ghost use Rattle.log_counts.specs.Counted.{CountsHold, ShapesFit, shapes_of, term_shape};
ghost use Rattle.log_counts.specs.Rules.{Rule};
ghost use Rattle.log_counts.specs.declared.TermShape.{TermShape};
ghost use Rattle.log_counts.specs.Growth.{Counted, Grown};

// The numbers of a term.
#[derive(Clone, Copy, Default)]
pub struct TermShape {
    pub negative: bool,
    pub coef: u32,
    pub bits: usize,
}

impl TermShape {
    // What its bits come to, all set, with its coefficient.
    fn all_bits(self) -> u32
        requires { shl self.bits self.coef < 33554432 }
        ensures { (result ≡ self.coef * (shl self.bits 1 - 1)) × (result < 33554432) }
    {
        let mut x: u32 = 0;
        for _i in 0..self.bits {
            x = 2 * x + self.coef;
        }
        x
    }
}

// How many literals each column has, and how many columns there are.
#[derive(Clone, Copy)]
pub struct ColumnCounts {
    pub counts: [u32; 32],
    pub width: usize,
}

impl ColumnCounts {
    // So many columns of no literal.
    fn none(width: usize) -> ColumnCounts
        ensures { result ≡ record { counts = replicate 32 0; width = width } }
    {
        ColumnCounts {
            counts: [0; 32],
            width,
        }
    }

    // One literal more in each of the n columns from `from` on.
    fn push(self, from: usize, n: usize) -> ColumnCounts
        requires { (from + n ≤ 25) × Counted 1000000 self }
        ensures { Grown 25 (push_counts from n) self result }
    {
        let mut counts = self.counts;
        for w in from..from + n {
            counts[w] += 1;
        }
        ColumnCounts {
            counts,
            width: self.width.max(from + n),
        }
    }

    // A term's n bits, once for each bit of its coefficient.
    fn push_scaled(self, coef: u32, n: usize) -> ColumnCounts
        requires { (shl n coef < 33554432) × Counted 10000 self }
        ensures { Grown 300 (push_scaled_counts 12 coef 0 n) self result }
    {
        let mut out = self;
        let mut k = coef;
        for s in 0..12 {
            if k % 2 == 1 {
                out = out.push(s, n);
            }
            k /= 2;
        }
        out
    }

    // The columns in use.
    pub fn columns(&self) -> &[u32]
        requires { self.now.width ≤ 32 }
        ensures { result.now ≡ take self.now.width self.now.counts }
    {
        &self.counts[..self.width]
    }
}

// The numbers of a sum's terms, within bounds.
#[derive(Clone, Copy)]
pub struct Shapes<'a> {
    pub list: &'a [TermShape],
    ghost fits: { ShapesFit list.now },
}

impl Shapes<'_> {
    // The terms that are chosen, in at least so many columns.
    fn counts_of<F: Fn(TermShape) -> bool>(&self, width: usize, chosen: F) -> ColumnCounts
        requires width_bound { width ≤ 25 }
        requires callable { F.IsAlwaysCallable chosen }
        ensures { (rule : Rule) → ((t : TermShape) (b : Bool) → F.post chosen t b → b ≡ rule.test (term_shape t)) → CountsHold (rule.all (shapes_of self.now.list.now) (replicate width 0)) result }
    {
        let mut c = ColumnCounts::none(width);
        for t in self.list {
            if chosen(*t) {
                c = c.push_scaled(t.coef, t.bits);
            }
        }
        c
    }

    // Ne and Ge: the terms of one sign, in at least one column.
    pub fn sign_counts(&self, sign: bool) -> ColumnCounts
        ensures { CountsHold (sign_counts sign (shapes_of self.now.list.now) (0 ∷ [])) result }
    {
        self.counts_of(1, |t| sign == t.negative)
    }

    // Eq: the terms that have bits.
    pub fn eq_counts(&self) -> ColumnCounts
        ensures { CountsHold (gather_counts (shapes_of self.now.list.now) []) result }
    {
        self.counts_of(0, |t| 0 < t.bits)
    }

    // Eq: what the negated literals add too much.
    pub fn negated_bits(&self) -> u32
        ensures { (result ≡ negated_bits (shapes_of self.now.list.now)) × (result < 268435456) }
    {
        let mut sum: u32 = 0;
        for t in self.list {
            if t.negative {
                sum += t.all_bits();
            }
        }
        sum
    }
}

// The rows of a product of x bits by y bits, each a column further.
pub fn row_counts(x: usize, y: usize) -> ColumnCounts
    requires { (x ≤ 12) × (y ≤ 12) }
    ensures { CountsHold (rows_counts x y 0 []) result }
{
    let mut c = ColumnCounts::none(0);
    for i in 0..x {
        c = c.push(i, y);
    }
    c
}
