// A job file's run, its text, a solver's answer to it and the figures of one more field, for callers in C and Rust
// (`rt lib` makes the archive out/libsumirewha.a): a slice is a pointer and a length.
#![tactic(auto)]

ghost use Rattle.std.specs.Prelude.{◌≡◌};
ghost use Rattle.refusal.specs.Number.{status};
ghost use Rattle.job_file.specs.Run.{job_run, run_file};
ghost use Rattle.job_figures.specs.FileFigures.{FileFigures};
ghost use Rattle.job_print.specs.Print.{FilePrinted};
ghost use Rattle.sumirewha.specs.Answers.{Answered, called, file_printed, file_read};
ghost use Rattle.sumirewha.specs.Encoded.{Encoded};

use clause_set::put;
use encoder::Solution;
use job_file::JobAnswer;
use refusal::Refusal;

// The number that an answer is told by.
fn number<T: Copy>(answer: Result<T, Refusal>) -> u32
    ensures { result ≡ status answer }
{
    match answer {
        Ok(_) => 0,
        Err(e) => e.number(),
    }
}

// Runs the job file on the lent stores. Answers its number; `counts` gets field, variables, clauses and literals.
#[unsafe(no_mangle)]
pub extern "C" fn sumirewha_encode(
    bytes: &[u8],
    lits: &mut [u32],
    ends: &mut [u32],
    counts: &mut [u32],
) -> u32
    ensures { Encoded (run_file bytes.now lits.old ends.old) result lits.new ends.new counts.old counts.new }
{
    let a = job_file::run(bytes, lits, ends);
    put(counts, 0, a.field);
    put(counts, 1, a.env.variables);
    put(counts, 2, a.env.clauses);
    put(counts, 3, a.env.literals);
    number(a.answer)
}

// Runs the job file on the lent stores and answers how many bytes the text has that `cnf` prints for it. The text is written from the start
// of `out`, or not at all where `out` is shorter.
#[unsafe(no_mangle)]
pub extern "C" fn sumirewha_print(
    bytes: &[u8],
    lits: &mut [u32],
    ends: &mut [u32],
    out: &mut [u8],
) -> usize
    ensures { FilePrinted bytes.now lits.old ends.old out.old result lits.new ends.new out.new }
{
    job_print::print_file(bytes, lits, ends, out)
}

// Reads a solver's answer where the file was accepted: 1 where an assignment was found.
fn read_after(
    run: JobAnswer,
    lits: &[u32],
    ends: &[u32],
    text: &[u8],
    assignment: &mut [u8],
) -> Result<u32, Refusal>
    ensures { called result assignment.new ≡ file_read text.now assignment.old (job_run run lits.now ends.now) }
{
    run.answer?;
    match encoder::read_answer(run.env, lits, ends, text, assignment)? {
        Solution::Assignment => Ok(1),
        Solution::Unsatisfiable => Ok(0),
    }
}

// Prints an assignment where the file was accepted: the length of the text.
fn print_after(
    run: JobAnswer,
    lits: &[u32],
    ends: &[u32],
    assignment: &[u8],
    out: &mut [u8],
) -> Result<u32, Refusal>
    ensures { called result out.new ≡ file_printed assignment.now out.old (job_run run lits.now ends.now) }
{
    run.answer?;
    let size = encoder::print_answer(run.env, lits, ends, assignment, out)?;
    Ok(size as u32)
}

// Runs the job file on the lent stores, then reads the solver's answer `text`. Answers the number, the file's own first; `counts` gets field and
// the word, 1 where an assignment was found. An assignment goes into `assignment`, which is else left as it was.
#[unsafe(no_mangle)]
pub extern "C" fn sumirewha_read_answer(
    bytes: &[u8],
    lits: &mut [u32],
    ends: &mut [u32],
    text: &[u8],
    assignment: &mut [u8],
    counts: &mut [u32],
) -> u32
    ensures { Answered (run_file bytes.now lits.old ends.old) (file_read text.now assignment.old) result lits.new ends.new counts.old counts.new assignment.new }
{
    let run = job_file::run(bytes, lits, ends);
    let read = read_after(run, lits, ends, text, assignment);
    put(counts, 0, run.field);
    put(counts, 1, read.unwrap_or(0));
    number(read)
}

// Runs the job file on the lent stores, then prints the assignment as a solver's answer into `out`. Answers the number, the file's own first;
// `counts` gets field and the length of the text, 0 if refused. Refused, `out` is left as it was.
#[unsafe(no_mangle)]
pub extern "C" fn sumirewha_print_answer(
    bytes: &[u8],
    lits: &mut [u32],
    ends: &mut [u32],
    assignment: &[u8],
    out: &mut [u8],
    counts: &mut [u32],
) -> u32
    ensures { Answered (run_file bytes.now lits.old ends.old) (file_printed assignment.now out.old) result lits.new ends.new counts.old counts.new out.new }
{
    let run = job_file::run(bytes, lits, ends);
    let printed = print_after(run, lits, ends, assignment, out);
    put(counts, 0, run.field);
    put(counts, 1, printed.unwrap_or(0));
    number(printed)
}

// Runs the job file on the lent stores, then gives the figures of one more field behind it, tag 05 or 06. Answers the number, the file's own
// first; `counts` gets field, and what the field's call would add: variables, clauses, literal entries, 0 if refused.
#[unsafe(no_mangle)]
pub extern "C" fn sumirewha_figures(
    bytes: &[u8],
    field: &[u8],
    lits: &mut [u32],
    ends: &mut [u32],
    counts: &mut [u32],
) -> u32
    ensures { FileFigures (run_file bytes.now lits.old ends.old) field.now result lits.new ends.new counts.old counts.new }
{
    let run = job_file::run(bytes, lits, ends);
    let figures = job_figures::figures_behind(run, field);
    let added = encoder::counts_told(figures);
    put(counts, 0, run.field);
    put(counts, 1, added.variables);
    put(counts, 2, added.clauses);
    put(counts, 3, added.literals);
    number(figures)
}
