// Runs the inner functions on the lines of standard input and prints their answers. A line is a word and numbers of at most 2 ^ 30:
//   ge ABOVE BELOW (WEIGHT FALLING FIRST COUNT)..               one inequality, of at most 15 terms and 19 literals, with weights
//                                                               of at most 2 ^ 27, the last term's times its literals at most 24
//   adder VARS CONSTANT WIDTH GIVEN RESULT.. (COEF N LIT..)..   columns gathered from N literals each, scaled by COEF
//   eq_adder VARS X Y WIDTH (COEF N LIT..)..                    columns that with X have to add up to Y; X or Y is 0
// It is answered by a line: `ge CLAUSES`, `adder VARS BITS.. : CLAUSES`, `eq_adder VARS CLAUSES`, `tall` or `bad line`. CLAUSES is how
// many clauses and literals there are, and then each clause behind a bar or, above 400 literals, `sum` and a check sum.
#![tactic(auto)]

mod print; // print.rt: what is printed

ghost use Rattle.std.specs.Prelude.{◌≡◌, ◌+◌, ◌≤◌, ◌<◌, IfSome, length};
ghost use Rattle.log_adder.specs.ColumnInfo.{AllLow};
ghost use Rattle.mixed.specs.Infos.{Small};
ghost use Rattle.columns_check.specs.Input.{Gathered, RowRead, TermsRead};

use clause_set::{ClauseSet, Counts};
use lines::{Line, Word};
use log_adder::Columns;
use log_linear::Bits;
use mixed::LinearInfo;
use print::{show_clauses, show_number};
use sat::Lit;
use std::io;

// Number i of a line, or 0 past the end. Negative and greater ones are refused where the line is read.
fn number(nums: &[i64], i: usize) -> u32
    ensures { result ≤ 1073741824 }
{
    lines::number_at(nums, i).unwrap_or(0).min(1073741824)
}

// Whether each number of a line is from 0 to 2 ^ 30.
fn all_small(nums: &[i64]) -> bool {
    nums.iter().all(|z| 0 <= *z && *z <= 1073741824)
}

// One inequality ---------------------------------------------------------------------------------------------------------

// The term at `at`, of at most `left` literals, if it is within bounds.
fn read_term(nums: &[i64], at: usize, left: u32) -> Option<LinearInfo>
    requires { (at < 1000) × (left ≤ 19) }
    ensures { IfSome result (λ t. Small t × (t.count ≤ left) × (t.weight ≤ 134217728)) }
{
    let weight = number(nums, at);
    let falling = number(nums, at + 1);
    let first = number(nums, at + 2);
    let count = number(nums, at + 3);
    if count > left || falling > 1 || weight == 0 || weight > 134217728 {
        return None;
    }
    Some(LinearInfo {
        weight,
        falling: falling == 1,
        first: Lit(first),
        count,
    })
}

// The terms of a line, and what the last can lose.
#[derive(Clone, Copy)]
struct Terms {
    terms: [LinearInfo; 15],
    len: usize,
    last: u64,
}

// The terms behind the two bounds, if the line is within bounds.
fn read_terms(nums: &[i64]) -> Option<Terms>
    ensures { IfSome result TermsRead }
{
    let rest = nums.len().checked_sub(2)?;
    let len = rest / 4;
    if rest % 4 != 0 || len > 15 {
        return None;
    }
    let mut terms = [LinearInfo::default(); 15];
    let mut left: u32 = 19;
    let mut last: u64 = 0;
    for n in 0..len {
        let x = read_term(nums, 4 * n + 2, left)?;
        terms[n] = x;
        left -= x.count;
        last = x.weight as u64 * x.count as u64;
    }
    Some(Terms { terms, len, last })
}

fn run_ge<R: Print>(rt: &R, nums: &[i64], lits: &mut [u32], ends: &mut [u32]) -> io::Result<()> {
    let Some(t) = read_terms(nums) else {
        return rt.write_all(b"bad line\n");
    };
    if t.last > 24 {
        return rt.write_all(b"bad line\n");
    }
    let above = u64::from(number(nums, 0));
    let below = u64::from(number(nums, 1));
    let mut set = ClauseSet {
        lits,
        ends,
        base: 0,
        vars: 0,
        used: Counts::default(),
    };
    mixed::encode_linear_ge_mixed_from_info(&mut set, &t.terms[..t.len], above, below);
    rt.write_all(b"ge")?;
    show_clauses(rt, &set)
}

// Columns ----------------------------------------------------------------------------------------------------------------

// Literals and a coefficient by which they are gathered, and where the next begin.
#[derive(Clone, Copy)]
struct Row {
    bits: Bits,
    coef: u32,
    end: usize,
}

// n literals from `from` on.
fn lits_from(nums: &[i64], from: usize, n: usize) -> Bits
    requires { (n ≤ 26) × (from + n ≤ length nums.now) }
    ensures { (result.len ≡ n) × AllLow result.lits }
{
    let mut lits = [Lit(0); 32];
    for i in 0..n {
        lits[i] = Lit(number(nums, from + i));
    }
    Bits { lits, len: n }
}

// The row at `at`, if it is within bounds.
fn read_row(nums: &[i64], at: usize) -> Option<Row>
    requires { (at < length nums.now) × (length nums.now ≤ 511) }
    ensures { IfSome result (RowRead at) }
{
    let coef = number(nums, at);
    let len = number(nums, at + 1) as usize;
    if coef > 4095 || len > 12 || at + 2 + len > nums.len() {
        return None;
    }
    Some(Row {
        bits: lits_from(nums, at + 2, len),
        coef,
        end: at + 2 + len,
    })
}

// The columns of the rows that are left of a line, if these are within bounds.
fn gather(nums: &[i64], from: usize) -> Option<Columns>
    requires { length nums.now ≤ 511 }
    ensures { IfSome result (Gathered 200000) }
{
    if from > nums.len() {
        return None;
    }
    let mut cols = log_gather::no_columns();
    let mut at = from;
    while at < nums.len() {
        let r = read_row(nums, at)?;
        log_gather::push_scaled(&mut cols, r.bits.as_slice(), r.coef, 0, 12);
        at = r.end;
    }
    Some(cols)
}

// The literals of the sum's bits, behind the word and the variable count.
fn show_bits<R: Print>(rt: &R, vars: u32, bits: &[Lit]) -> io::Result<()> {
    rt.write_all(b"adder")?;
    show_number(rt, vars)?;
    for l in bits {
        show_number(rt, l.0)?;
    }
    rt.write_all(b" :")
}

fn run_adder<R: Print>(rt: &R, nums: &[i64], lits: &mut [u32], ends: &mut [u32]) -> io::Result<()>
    requires { length nums.now ≤ 511 }
{
    let vars = number(nums, 0);
    let constant = number(nums, 1);
    let width = number(nums, 2) as usize;
    let given = number(nums, 3) as usize;
    if vars > 1048576 || width > 26 || given > width || 4 + given > nums.len() {
        return rt.write_all(b"bad line\n");
    }
    let Some(cols) = gather(nums, 4 + given) else {
        return rt.write_all(b"bad line\n");
    };
    if 12 < log_adder::greatest_height(cols.first_counts(width), constant) {
        return rt.write_all(b"tall\n");
    }
    let first = lits_from(nums, 4, given);
    let mut set = ClauseSet {
        lits,
        ends,
        base: 0,
        vars,
        used: Counts::default(),
    };
    let bits = log_adder::log_encoding_adder(&mut set, &cols, first.as_slice(), width, constant);
    show_bits(rt, set.vars, bits.as_slice())?;
    show_clauses(rt, &set)
}

fn run_eq_adder<R: Print>(
    rt: &R,
    nums: &[i64],
    lits: &mut [u32],
    ends: &mut [u32],
) -> io::Result<()>
    requires { length nums.now ≤ 511 }
{
    let vars = number(nums, 0);
    let width = number(nums, 3) as usize;
    let x = number(nums, 1);
    let y = number(nums, 2);
    if vars > 1048576 || width > 26 || width == 0 || (x > 0 && y > 0) {
        return rt.write_all(b"bad line\n");
    }
    let Some(cols) = gather(nums, 4) else {
        return rt.write_all(b"bad line\n");
    };
    if 12 < log_adder2::eq_greatest_height(cols.first_counts(width), x, y) {
        return rt.write_all(b"tall\n");
    }
    let mut set = ClauseSet {
        lits,
        ends,
        base: 0,
        vars,
        used: Counts::default(),
    };
    log_adder2::log_encoding_adder2(&mut set, &cols, width, x, y);
    rt.write_all(b"eq_adder")?;
    show_number(rt, set.vars)?;
    show_clauses(rt, &set)
}

// Lines ------------------------------------------------------------------------------------------------------------------

// A line with this word and these numbers.
fn run<R: Print>(
    rt: &R,
    word: Word,
    nums: &[i64],
    lits: &mut [u32],
    ends: &mut [u32],
) -> io::Result<()>
    requires { length nums.now ≤ 511 }
{
    if !all_small(nums) {
        return rt.write_all(b"bad line\n");
    }
    match word.text() {
        Some(b"ge") => run_ge(rt, nums, lits, ends),
        Some(b"adder") => run_adder(rt, nums, lits, ends),
        Some(b"eq_adder") => run_eq_adder(rt, nums, lits, ends),
        _ => rt.write_all(b"bad line\n"),
    }
}

// A line that ends here.
fn end_line<R: Print>(
    rt: &R,
    line: Line,
    nums: &mut [i64],
    lits: &mut [u32],
    ends: &mut [u32],
) -> io::Result<()>
    requires { length nums.old ≤ 511 }
{
    let whole = lines::line_whole(nums, line);
    let numbers = whole.numbers;
    if !numbers.good {
        return rt.write_all(b"bad line\n");
    }
    run(rt, whole.word, &nums[..numbers.count], lits, ends)
}

fn run_lines<R: Print>(
    rt: &R,
    s: &[u8],
    nums: &mut [i64],
    lits: &mut [u32],
    ends: &mut [u32],
) -> io::Result<()>
    requires { length nums.old ≤ 511 }
{
    let mut at: usize = 0;
    while at < s.len() {
        let fed = lines::feed(nums, lines::line_start(), s, at);
        end_line(rt, fed.line, nums, lits, ends)?;
        at = fed.next;
    }
    Ok(())
}

// The arrays' types say how long they are, so that the check does not count their entries.
fn run_in_arrays<R: io::Input + Print + Eprint>(
    rt: &R,
    input: &mut [u8; 262144],
    nums: &mut [i64; 511],
    lits: &mut [u32; 524288],
    ends: &mut [u32; 65536],
) {
    streams::answer_input(rt, input, |s| run_lines(rt, s, nums, lits, ends));
}

fn main(rt: HostRuntime) {
    let mut input = [0u8; 262144];
    let mut nums = [0i64; 511];
    let mut lits = [0u32; 524288];
    let mut ends = [0u32; 65536];
    run_in_arrays(&rt, &mut input, &mut nums, &mut lits, &mut ends);
}
