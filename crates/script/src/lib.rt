// The run of a script of calls, answered line by line. A line is a word and decimal integers, each behind one space:
//   stores L E              lends fresh stores of L literal entries and E ends, all 0
//   open N | range LOW HIGH | list V.. | binary C F T | linear OP CONSTANT [SETTING COEFFICIENT].. | mul X Y M
//   read SETTING BYTE.. | clause K
//   size OP CONSTANT [SETTING COEFFICIENT].. | size_mul X Y M   the figures of a sum or a product
//   solution LEN BYTE..     reads the solver's answer BYTE.. into a lent slice of LEN bytes, each 7 before
//   answer LEN BYTE..       prints the assignment BYTE.. into such a slice
//   job ..                  replaces the job: its counts, then of each record 12 literals, length, low, high and offset
//   lits I X | ends I X     puts X at entry I of a store
//   show                    prints the job and the lent stores
// A call prints `STATUS VALUE VARIABLES CLAUSES LITERALS`, an accepted `clause` also ` :` and its literals, `solution` and `answer` always
// ` :` and the lent slice, `size` and `size_mul` always ` :` and new variables, clauses and literal entries. A line that cannot be read prints `bad line N` and ends the run; an empty line is passed over.
#![tactic(auto)]

mod print;
mod words;

ghost use Rattle.std.specs.Prelude.{◌≡◌, ◌≤◌, IfOk, IfSome, length};
ghost use Rattle.script.specs.Run.{Lent};

use encoder_env::EncoderEnv;
use lines::{Line, Word, number_at};
pub use words::Stop;

// What is kept from line to line.
#[derive(Clone, Copy)]
pub struct Run {
    pub env: EncoderEnv,
    // how many entries of each store are lent
    pub lits: usize,
    pub ends: usize,
    // lines read
    pub number: u64,
}

// Number i of a line as a length of at most `most`.
fn length_at(nums: &[i64], i: usize, most: usize) -> Option<usize>
    ensures { IfSome result (λ n. n ≤ most) }
{
    let n: u32 = number_at(nums, i)?;
    (n as usize <= most).then_some(n as usize)
}

// `stores L E`
fn run_stores(nums: &[i64], run: &mut Run, lits: &mut [u32], ends: &mut [u32]) -> Option<()>
    requires { Lent run.old lits.old ends.old }
    ensures { Lent run.new lits.new ends.new }
{
    if nums.len() != 2 {
        return None;
    }
    let l = length_at(nums, 0, lits.len())?;
    let e = length_at(nums, 1, ends.len())?;
    script_state::clear(lits);
    script_state::clear(ends);
    run.lits = l;
    run.ends = e;
    Some(())
}

// A line with this word and these integers.
fn answer<R: Print>(
    rt: &R,
    word: Word,
    nums: &[i64],
    run: &mut Run,
    lits: &mut [u32],
    ends: &mut [u32],
) -> Result<(), Stop>
    requires { Lent run.old lits.old ends.old }
    ensures { Lent run.new lits.new ends.new }
{
    if word.text() == Some(b"stores".as_slice()) {
        return run_stores(nums, run, lits, ends).ok_or(Stop::BadLine);
    }
    let lent = &mut lits[..run.lits];
    words::answer(rt, word, nums, &mut run.env, lent, &mut ends[..run.ends])
}

// A line that ends here: it is answered, unless it is empty.
fn answer_line<R: Print>(
    rt: &R,
    line: Line,
    nums: &mut [i64],
    run: &mut Run,
    lits: &mut [u32],
    ends: &mut [u32],
) -> Result<(), Stop>
    requires { Lent run.old lits.old ends.old }
    ensures { Lent run.new lits.new ends.new }
{
    if lines::is_empty(line) {
        return Ok(());
    }
    let whole = lines::line_whole(nums, line);
    let numbers = whole.numbers;
    if !numbers.good {
        return Err(Stop::BadLine);
    }
    answer(rt, whole.word, &nums[..numbers.count], run, lits, ends)
}

// The same of one line more, which is named if it cannot be read. (No input has 2 ^ 64 lines.)
fn end_line<R: Print>(
    rt: &R,
    line: Line,
    nums: &mut [i64],
    run: &mut Run,
    lits: &mut [u32],
    ends: &mut [u32],
) -> Result<(), Stop>
    requires { Lent run.old lits.old ends.old }
    ensures { Lent run.new lits.new ends.new }
{
    run.number = run.number.saturating_add(1);
    let answered = answer_line(rt, line, nums, run, lits, ends);
    if let Err(Stop::BadLine) = answered {
        print::bad_line(rt, run.number)?;
    }
    answered
}

// The line that the next bytes continue, and the run up to it.
#[derive(Clone, Copy)]
pub struct Part {
    pub line: Line,
    pub run: Run,
}

// The bytes at hand, up to their end, a line that cannot be read or an answer that cannot be written.
pub fn run_part<R: Print>(
    rt: &R,
    s: &[u8],
    part: Part,
    nums: &mut [i64],
    lits: &mut [u32],
    ends: &mut [u32],
) -> Result<Part, Stop>
    requires { Lent part.run lits.old ends.old }
    ensures { IfOk result (λ p. Lent p.run lits.new ends.new) }
{
    let mut line = part.line;
    let mut run = part.run;
    let mut at: usize = 0;
    while at < s.len() {
        let fed = lines::feed(nums, line, s, at);
        line = fed.line;
        if fed.at < s.len() {
            end_line(rt, line, nums, &mut run, lits, ends)?;
            line = lines::line_start();
        }
        at = fed.next;
    }
    Ok(Part { line, run })
}

// The start of a run: the job of all 0.
pub fn start() -> Part
    ensures { (result.run.lits ≡ 8192) × (result.run.ends ≡ 4096) }
{
    let run = Run {
        env: encoder_read::opened(0),
        lits: 8192,
        ends: 4096,
        number: 0,
    };
    Part {
        line: lines::line_start(),
        run,
    }
}

// The end of a script: its last line may lack its line feed.
pub fn finish<R: Print>(
    rt: &R,
    part: Part,
    nums: &mut [i64],
    lits: &mut [u32],
    ends: &mut [u32],
) -> Result<(), Stop>
    requires { Lent part.run lits.old ends.old }
{
    if !lines::is_empty(part.line) {
        let mut run = part.run;
        end_line(rt, part.line, nums, &mut run, lits, ends)?;
    }
    Ok(())
}
