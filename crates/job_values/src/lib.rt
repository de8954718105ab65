// The values that a solver's answer gives to the settings and switches of a job file, as text.
#![tactic(auto)]

ghost use Rattle.std.specs.Prelude.{true, ◌≡◌, ◌≤◌, length, take};
ghost use Rattle.encoder_env.specs.WellFormed.{well_formed};
ghost use Rattle.text.specs.Bytes.{text, write};
ghost use Rattle.job_values.specs.Values.{Buffers, Stands, Told, accepted, answer_values, by_test, file_values, none_line, program_values};

use encoder_env::EncoderEnv;
use solver_answer::Solution;
use text::Writer;

// An answer of more than 1,048,576 bytes.
#[derive(Clone, Copy, Debug, PartialEq, Eq)]
pub struct TooLong;

// Prints the values that a solver's answer gives to a job file at the start of `out`, and answers how many bytes they have. An answer that is
// too long is told before the file is run.
pub fn print_values(file: &[u8], answer: &[u8], out: &mut [u8]) -> Result<usize, TooLong>
    requires { 1440 ≤ length out.old }
    ensures { Told result file.now answer.now out.old out.new }
{
    if 1048576 < answer.len() {
        return Err(TooLong);
    }
    Ok(put_program_values(file, answer, out))
}

// The same for a program's buffers: the first n bytes of `file` are the job file, the first m bytes of `answer` the answer.
pub fn print_program_values(
    file: &[u8],
    n: usize,
    answer: &[u8],
    m: usize,
    out: &mut [u8],
) -> Result<usize, TooLong>
    requires { Buffers file.now n answer.now m out.old }
    ensures { Told result (take n file.now) (take m answer.now) out.old out.new }
{
    if 1048576 < m {
        return Err(TooLong);
    }
    Ok(put_program_values(&file[..n], &answer[..m], out))
}

// The text on the program's own stores.
fn put_program_values(file: &[u8], answer: &[u8], out: &mut [u8]) -> usize
    requires { 1440 ≤ length out.old }
    ensures { Stands (program_values file.now answer.now) result out.new }
{
    let mut lits = [0u32; 8192];
    let mut ends = [0u32; 4096];
    put_file_values(file, &mut lits, &mut ends, answer, out)
}

// The text on lent stores: the file's own refusal, or what the answer comes to.
fn put_file_values(
    file: &[u8],
    lits: &mut [u32],
    ends: &mut [u32],
    answer: &[u8],
    out: &mut [u8],
) -> usize
    requires { 1440 ≤ length out.old }
    ensures { Stands (file_values file.now lits.old ends.old answer.now) result out.new }
{
    let a = job_file::run(file, lits, ends);
    match a.answer {
        Ok(()) => put_job_values(a.env, a.field, lits, ends, answer, out),
        Err(e) => dimacs::print_refused(out, a.field, e.number()),
    }
}

// The text of an answer to a job that its file left. A job has at most 65,535 variables.
fn put_job_values(
    env: EncoderEnv,
    field: u32,
    lits: &[u32],
    ends: &[u32],
    answer: &[u8],
    out: &mut [u8],
) -> usize
    requires { (well_formed env (length lits.now) (length ends.now) ≡ true) × (1440 ≤ length out.old) }
    ensures { Stands (answer_values (accepted field env lits.now ends.now) answer.now) result out.new }
{
    let mut assignment = [0u8; 65535];
    let n = env.variables as usize;
    put_answer_values(env, field, lits, ends, answer, &mut assignment[..n], out)
}

// The text by what the answer is read as, over a slice as long as the variable count.
fn put_answer_values(
    env: EncoderEnv,
    field: u32,
    lits: &[u32],
    ends: &[u32],
    answer: &[u8],
    assignment: &mut [u8],
    out: &mut [u8],
) -> usize
    requires { (well_formed env (length lits.now) (length ends.now) ≡ true) × (length assignment.old ≡ env.variables) × (1440 ≤ length out.old) }
    ensures { Stands (answer_values (accepted field env lits.now ends.now) answer.now) result out.new }
{
    match encoder_solution::read_answer(env, lits, ends, answer, assignment) {
        Ok(Solution::Assignment) => put_tested_values(env, field, lits, ends, assignment, out),
        Ok(Solution::Unsatisfiable) => put_none(out),
        Err(e) => dimacs::print_refused(out, field, e.number()),
    }
}

// The line of an answer that finds no assignment.
fn put_none(out: &mut [u8]) -> usize
    ensures { text out.new result ≡ write (text out.old 0) none_line }
{
    let mut w = Writer::new(out);
    w.put_bytes(b"none\n");
    w.at
}

// The values under an assignment that satisfies every clause, else its refusal.
fn put_tested_values(
    env: EncoderEnv,
    field: u32,
    lits: &[u32],
    ends: &[u32],
    assignment: &[u8],
    out: &mut [u8],
) -> usize
    requires { (well_formed env (length lits.now) (length ends.now) ≡ true) × (1440 ≤ length out.old) }
    ensures { Stands (by_test (accepted field env lits.now ends.now) assignment.now) result out.new }
{
    let tested = encoder_read::test_assignment(env, lits, ends, assignment);
    if let Err(e) = tested {
        return dimacs::print_refused(out, field, e.number());
    }
    values_text::put_values(out, env, lits, ends, assignment)
}

#[cfg(test)]
mod tests {
    use super::*;

    // Slices just as long as what they hold. The texts are the judge's.
    #[test]
    fn print_values_of_short_slices(rt: HostRuntime) {
        let rows: [(&[u8], &[u8], &[u8]); 4] = [
            (
                b"\x01\0\x01\x01",
                b"s SATISFIABLE\nv -1 0\n",
                b"switch 0 no\n",
            ),
            (b"\x01\0\x01\x01", b"s UNSATISFIABLE\n", b"none\n"),
            (b"\x01\0\x01\x01", b"", b"refused 1 19\n"),
            (b"\x01\0\x01", b"", b"refused 0 18\n"),
        ];
        for (file, answer, text) in rows {
            let mut out = [0u8; 1440];
            assert_eq!(rt; print_values(file, answer, &mut out), Ok(text.len()));
            assert_eq!(rt; out.get(..text.len()), Some(text));
        }
    }
}
