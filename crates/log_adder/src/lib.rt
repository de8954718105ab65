// Columns and the adder of Ne, Ge and products, after `log_encoding_adder` of log.rs. A call that is lent no entries only counts.
#![tactic(auto)]

ghost use Rattle.std.specs.Prelude.{◌≡◌, [], false, ◌+◌, ◌^◌, ◌≤◌, ◌<◌, get_or, length, map, take};
ghost use Rattle.sat.specs.LitArray.{num};
ghost use Rattle.clause_set.specs.Stores.{Added, Below, Fits, Wrote, add_clauses, after, stores};
ghost use Rattle.mixed.specs.Infos.{AllSmall, InTable, equated};
ghost use Rattle.log_adder.specs.AdderState.{AdderAdded, AdderFits, ColumnAdded, ColumnReady, CountsLow, InBounds, adder_output, result_count, result_lit};
ghost use Rattle.log_adder.specs.ColumnInfo.{ColumnSized, column_clauses, column_infos, lit_info, none, range_info};
ghost use Rattle.log_encoding.specs.AdderSize.{greatest_height, input_shapes, reached, too_tall};

use clause_set::{ClauseSet, Counts};
use log_linear::Bits;
use mixed::{LinearInfo, encode_linear_eq_mixed_from_info};
use sat::{Lit, Var};

// Consecutive variables.
#[derive(Clone, Copy)]
pub struct VarRange {
    pub first: Var,
    pub count: u32,
}

// A column: own literals, the carry that comes in, the constant bit, the carry that goes out, the result.
#[derive(Clone, Copy)]
pub struct ColumnInfo<'a> {
    pub own: &'a [Lit],
    pub carry: VarRange,
    pub bit: u32,
    pub next: VarRange,
    pub result: Lit,
}

// A literal as a term.
fn lit_info(falling: bool, l: Lit) -> LinearInfo
    ensures { result ≡ lit_info falling l }
{
    LinearInfo {
        weight: 1,
        falling,
        first: l,
        count: 1,
    }
}

// Consecutive variables as a term.
fn range_info(weight: u32, falling: bool, vars: VarRange) -> LinearInfo
    requires { vars.first.0 < 2 ^ 30 }
    ensures { result ≡ range_info weight falling vars }
{
    let first = vars.first;
    LinearInfo {
        weight,
        falling,
        first: first.as_lit(false),
        count: vars.count,
    }
}

// The terms of a column: own + carry - 2 next - result.
pub fn infos(c: ColumnInfo<'_>) -> [LinearInfo; 15]
    requires { ColumnSized c }
    ensures { (take (length c.entry.own.now + 3) result ≡ column_infos c.entry) × AllSmall result }
{
    let mut ts = [LinearInfo::default(); 15];
    for (i, l) in c.own.iter().enumerate() {
        ts[i] = lit_info(false, *l);
    }
    let n = c.own.len();
    ts[n] = range_info(1, false, c.carry);
    ts[n + 1] = range_info(2, true, c.next);
    ts[n + 2] = lit_info(true, c.result);
    ts
}

// Writes the clauses of a column's equation from the front of two parts of the stores; that of the literals begins at `base`.
fn write_part(
    lits: &mut [u32],
    ends: &mut [u32],
    base: u32,
    ts: &[LinearInfo],
    above: u64,
    below: u64,
    total: u64,
) -> Counts
    requires all_small { AllSmall ts.now }
    requires in_table { (length ts.now ≤ 15) × (below + total < 2 ^ 64) × InTable ts.now }
    requires fits { Fits base none (equated ts.now above below total) }
    ensures { after lits.new ends.new result ≡ add_clauses base (equated ts.now above below total) (stores lits.old ends.old 0 0) }
{
    let mut set = ClauseSet {
        lits,
        ends,
        base,
        vars: 0,
        used: Counts::default(),
    };
    encode_linear_eq_mixed_from_info(&mut set, ts, above, below, total);
    set.used
}

// The clauses of a column's equation: the free tails of the stores are lent on to their writer, and come back.
pub fn push_equation(set: &mut ClauseSet<'_>, ts: &[LinearInfo], above: u64, below: u64, total: u64)
    requires all_small { AllSmall ts.now }
    requires in_table { (length ts.now ≤ 15) × (below + total < 2 ^ 64) × InTable ts.now }
    requires fits { Fits set.old.base set.old.used (equated ts.now above below total) }
    ensures { Added set.old (equated ts.now above below total) set.new }
{
    let used = set.used;
    let base = set.base + used.lits as u32;
    let lits = &mut *set.lits;
    let ends = &mut *set.ends;
    let from = clause_set::within(used.lits, lits.len());
    let at = clause_set::within(used.clauses, ends.len());
    let wrote = write_part(
        &mut lits[from..],
        &mut ends[at..],
        base,
        ts,
        above,
        below,
        total,
    );
    set.used = Counts {
        clauses: used.clauses + wrote.clauses,
        lits: used.lits + wrote.lits,
    };
}

// The clauses of one column.
pub fn push_column(set: &mut ClauseSet<'_>, c: ColumnInfo<'_>)
    requires column_sized { ColumnSized c }
    requires below { Below (2 ^ 31) set.old }
    ensures { Added set.old (column_clauses c.entry) set.new }
{
    let high = c.own.len() as u64 + c.carry.count as u64;
    let total = high + 2 * c.next.count as u64 + 1;
    let above = c.bit as u64 + high;
    let n = c.own.len() + 3;
    push_equation(set, &infos(c)[..n], above, 0, total);
}

// The columns of an adder: each one's own literals, of which the first twelve are stored, and how many they are.
#[derive(Clone, Copy)]
pub struct Columns {
    pub lits: [[Lit; 12]; 32],
    pub counts: [u32; 32],
}

// The first n literals of a column.
fn first_of(own: &[Lit; 12], n: u32) -> &[Lit]
    requires { n ≤ 12 }
    ensures { (result.now ≡ take n own.now) × (length result.now ≡ n) }
{
    &own[..n as usize]
}

impl Columns {
    // The own literals of column i.
    pub fn own(&self, i: usize) -> &[Lit]
        requires { (i < 32) × (get_or self.now.counts i 0 ≤ 12) }
        ensures { (result.now ≡ take (get_or self.now.counts i 0) (get_or self.now.lits i [])) × (length result.now ≡ get_or self.now.counts i 0) }
    {
        first_of(&self.lits[i], self.counts[i])
    }

    // How many literals the first columns have.
    pub fn first_counts(&self, width: usize) -> &[u32]
        requires { width ≤ 32 }
        ensures { (result.now ≡ take width self.now.counts) × (length result.now ≡ width) }
    {
        &self.counts[..width]
    }
}

// Between two columns: the literals of the bits so far, and the carry.
#[derive(Clone, Copy)]
struct AdderState {
    bits: Bits,
    carry: VarRange,
}

// The result: the one given, else the literal of a new variable.
fn result_of(set: &mut ClauseSet<'_>, given: Option<Lit>) -> Lit
    requires { set.old.vars < 2 ^ 30 }
    ensures lit { result ≡ result_lit given set.old.vars }
    ensures wrote { Wrote set.old (result_count given set.old.vars) [] set.new }
{
    match given {
        Some(l) => l,
        None => set.new_lit(),
    }
}

// One column, with its own literals, constant bit and perhaps a given result: its new variables, its clauses, its result.
fn add_column(
    set: &mut ClauseSet<'_>,
    s: &mut AdderState,
    own: &[Lit],
    bit: u32,
    given: Option<Lit>,
)
    requires in_bounds { InBounds set.old s.old }
    requires column_ready { ColumnReady own.now bit given s.old }
    ensures { ColumnAdded own.now bit given set.old s.old set.new s.new }
{
    let carry = s.carry;
    let next = VarRange {
        first: Var(set.vars),
        count: (bit + own.len() as u32 + carry.count) / 2,
    };
    set.vars += next.count;
    let result = result_of(set, given);
    let info = ColumnInfo {
        own,
        carry,
        bit,
        next,
        result,
    };
    push_column(set, info);
    let len = s.bits.len;
    s.bits.lits[len] = result;
    s.bits.len = len + 1;
    s.carry = next;
}

// The greatest height of a column that the adder reaches; past the columns given, none is higher than the last.
pub fn greatest_height(counts: &[u32], constant: u32) -> u32
    requires { CountsLow counts.now }
    ensures { result ≡ greatest_height (reached (input_shapes (length counts.now) 0 counts.now constant) 0) }
{
    let mut bits = constant;
    let mut carry = 0;
    let mut most: u32 = 0;
    for count in counts {
        let height = *count + carry;
        most = most.max(height);
        carry = (bits % 2 + height) / 2;
        bits /= 2;
    }
    most
}

// The adder of Ne, Ge and products: columns with the bits of a constant, and results of which the first may be given.
pub fn log_encoding_adder(
    set: &mut ClauseSet<'_>,
    cols: &Columns,
    given: &[Lit],
    width: usize,
    constant: u32,
) -> Bits
    requires adder_fits { AdderFits cols.now given.now width }
    requires constant_value { too_tall (reached (input_shapes width 0 cols.now.counts constant) 0) ≡ false }
    requires vars_bound { (set.old.vars ≤ 1048576) × Below (2 ^ 30 + 1) set.old }
    ensures { AdderAdded set.old (adder_output cols.now given.now width constant set.old.vars) set.new result }
{
    let mut s = AdderState {
        bits: Bits {
            lits: [Lit(0); 32],
            len: 0,
        },
        carry: VarRange {
            first: Var(0),
            count: 0,
        },
    };
    let mut k = constant;
    for i in 0..width {
        add_column(set, &mut s, cols.own(i), k % 2, given.get(i).copied());
        k /= 2;
    }
    // Past the columns: as long as there is a carry.
    while s.carry.count > 0 {
        add_column(set, &mut s, &[], 0, None);
    }
    s.bits
}
