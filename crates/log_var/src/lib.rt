// A setting's record and clauses, after `encode_var_log` of log.rs, and its value. A set that is lent no entries only counts.
#![tactic(auto)]

ghost use Rattle.std.specs.Prelude.{◌≡◌, [], ◌∷◌, ◌+◌, ◌-◌, ◌*◌, ◌^◌, ◌≤◌, ◌<◌, length, map};
ghost use Rattle.arithmetic.specs.Integers.{down, up};
ghost use Rattle.sat.specs.Fresh.{fresh};
ghost use Rattle.sat.specs.LitArray.{num};
ghost use Rattle.clause_set.specs.Stores.{Fits, Wrote};
ghost use Rattle.norm_csp.specs.Domain.{binary, list, range};
ghost use Rattle.log_encoding.specs.Binary.{binary_bits};
ghost use Rattle.log_var.specs.Calls.{Ready, VarAdded};
ghost use Rattle.log_var.specs.Parts.{BitAdded, BitsAdded, CodesFit, code_range};
ghost use Rattle.log_var.specs.Record.{code_of_bytes, pad, read_bytes};

use arithmetic::{bit_length, code, offset_of, value};
use clause_set::{ClauseSet, holds};
use log_domain::{add_bound, add_gaps};
use sat::{Lit, Var};

// The setting record: its literals, the lowest first, how many they are, lowest and highest value, offset.
#[derive(Clone, Copy)]
pub struct LogEncoding {
    pub lits: [Lit; 12],
    pub len: u32,
    pub low: i32,
    pub high: i32,
    pub offset: i32,
}

// The offset, the lowest and the highest code, and how many bits they take.
#[derive(Clone, Copy)]
struct CodeRange {
    offset: i32,
    low: u32,
    high: u32,
    bits: u32,
}

// The codes of a setting's lowest and highest value.
fn code_range(low: i32, high: i32) -> CodeRange
    requires { CodesFit low high }
    ensures { result ≡ code_range low high }
{
    let offset = offset_of(low);
    let k = code(offset, low);
    let m = code(offset, high);
    CodeRange {
        offset,
        low: k,
        high: m,
        bits: bit_length(m),
    }
}

// The plain literals of n new variables, in the places of a record.
fn new_lits(set: &mut ClauseSet<'_>, n: u32) -> [Lit; 12]
    requires { (set.old.vars + n < 2 ^ 30) × (n ≤ 12) }
    ensures lits { result ≡ pad (fresh n set.old.vars) }
    ensures wrote { Wrote set.old (set.old.vars + n) [] set.new }
{
    let mut out = [Lit(0); 12];
    for i in 0..n as usize {
        out[i] = set.new_lit();
    }
    out
}

// A range: a clause for each set bit of the code of `low`, then one for each clear bit of that of `high`.
pub fn encode_range(set: &mut ClauseSet<'_>, low: i32, high: i32) -> LogEncoding
    requires { Ready (range low high) set.old }
    ensures { VarAdded (range low high) set.old result set.new }
{
    let codes = code_range(low, high);
    let n = codes.bits;
    let first = Var(set.vars);
    add_bound(true, set, first, n, codes.low);
    add_bound(false, set, first, n, codes.high);
    let lits = new_lits(set, n);
    LogEncoding {
        lits,
        len: n,
        low,
        high,
        offset: codes.offset,
    }
}

// A list: its range, then a clause against each missing code, rising.
pub fn encode_list(set: &mut ClauseSet<'_>, values: &[i32]) -> LogEncoding
    requires { Ready (list values.now) set.old }
    ensures { VarAdded (list values.now) set.old result set.new }
{
    let first = Var(set.vars);
    let low = values[0];
    let high = values[values.len() - 1];
    let encoding = encode_range(set, low, high);
    add_gaps(set, first, encoding.len, encoding.offset, values);
    encoding
}

// The lowest bit of codes f and t: where they are equal in it, a new variable with a one-literal clause, else the switch literal or its
// negation.
fn encode_bit(set: &mut ClauseSet<'_>, cond: Lit, f: u32, t: u32) -> Lit
    requires vars { set.old.vars < 2 ^ 30 }
    requires fits { Fits set.old.base set.old.used (binary_bits 1 f t cond.0 set.old.vars).clauses }
    ensures { BitAdded f t cond.0 set.old result set.new }
{
    if f % 2 == t % 2 {
        let v = Var(set.vars);
        set.push(&[v.as_lit(t % 2 == 0)]);
        return set.new_lit();
    }
    if t % 2 == 1 {
        return cond;
    }
    !cond
}

// The n bits of codes f and t, the lowest first.
fn encode_bits(set: &mut ClauseSet<'_>, cond: Lit, f: u32, t: u32, n: u32) -> [Lit; 12]
    requires n_bound { (n ≤ 12) × (set.old.vars < 2 ^ 29) }
    requires fits { Fits set.old.base set.old.used (binary_bits n f t cond.0 set.old.vars).clauses }
    ensures { BitsAdded n f t cond.0 set.old result set.new }
{
    let mut out = [Lit(0); 12];
    let mut x = f;
    let mut y = t;
    for i in 0..n as usize {
        out[i] = encode_bit(set, cond, x, y);
        x /= 2;
        y /= 2;
    }
    out
}

// Two values on a switch literal, f < t.
pub fn encode_binary(set: &mut ClauseSet<'_>, cond: Lit, f: i32, t: i32) -> LogEncoding
    requires { Ready (binary cond.0 f t) set.old }
    ensures { VarAdded (binary cond.0 f t) set.old result set.new }
{
    let codes = code_range(f, t);
    let n = codes.bits;
    let lits = encode_bits(set, cond, codes.low, codes.high, n);
    LogEncoding {
        lits,
        len: n,
        low: f,
        high: t,
        offset: codes.offset,
    }
}

// The number that literals spell under an assignment of bytes, the lowest first.
fn read_code(lits: &[Lit], assignment: &[u8]) -> u32
    requires { length lits.now ≤ 12 }
    ensures { (result ≡ code_of_bytes assignment.now (map num lits.now)) × (result < 4096) }
{
    let mut k: u32 = 0;
    for l in lits.iter().rev() {
        k = 2 * k + holds(*l, assignment) as u32;
    }
    k
}

// The value of a setting under an assignment of bytes.
pub fn get_int_value(e: LogEncoding, assignment: &[u8]) -> i32
    requires { (e.len ≤ 12) × (up e.offset ≡ 0) × (down e.offset ≤ 4095) }
    ensures { result ≡ read_bytes assignment.now e }
{
    let k = read_code(&e.lits[..e.len as usize], assignment);
    value(e.offset, k)
}
