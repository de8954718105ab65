// The size of the adder of Ne, Ge and products, from how many literals its columns have: each column is walked for its counts.
#![tactic(auto)]

ghost use Rattle.std.specs.Prelude.{◌≡◌, false, length, ◌+◌, ◌≤◌, ◌<◌};
ghost use Rattle.log_encoding.specs.AdderSize.{input_shapes, reached, reached_past, too_tall};
ghost use Rattle.adder_size.specs.Counted.{ColumnCounted, Counted, CountedFrom, InBounds};

use clause_set::Counts;
use column_walk::{plus, walk_column};

// The columns so far: bits of the sum, the carries' variables, those of the last carry, clauses and literal entries.
#[derive(Clone, Copy, Default)]
pub struct AdderSize {
    pub bits: u32,
    pub carries: u32,
    pub carry: u32,
    pub used: Counts,
}

impl AdderSize {
    // One column more.
    fn with_column(self, own: u32, bit: u32) -> AdderSize
        requires carry_bound { (own + self.carry ≤ 12) × (bit ≤ 1) × (self.bits < 32) }
        requires in_bounds { InBounds self }
        ensures { ColumnCounted own bit self result }
    {
        let next = (bit + own + self.carry) / 2;
        AdderSize {
            bits: self.bits + 1,
            carries: self.carries + next,
            carry: next,
            used: plus(self.used, walk_column(own, self.carry, bit)),
        }
    }

    // Past the columns: as long as there is a carry.
    fn extended(self) -> AdderSize
        requires { InBounds self × (self.bits + self.carry ≤ 32) }
        ensures { CountedFrom self (reached_past self.carry self.carry) result }
    {
        let mut s = self;
        while 0 < s.carry {
            s = s.with_column(0, 0);
        }
        s
    }
}

// The columns of so many literals with the bits of a constant, and those past them.
pub fn adder_size(counts: &[u32], constant: u32) -> AdderSize
    requires width_bound { length counts.now ≤ 26 }
    requires constant_value { too_tall (reached (input_shapes (length counts.now) 0 counts.now constant) 0) ≡ false }
    ensures { Counted (reached (input_shapes (length counts.now) 0 counts.now constant) 0) result }
{
    let mut s = AdderSize::default();
    let mut k = constant;
    for own in counts {
        s = s.with_column(*own, k % 2);
        k /= 2;
    }
    s.extended()
}
