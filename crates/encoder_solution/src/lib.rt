// A solver's answer read as an assignment of the job's variables, and an assignment printed as a solver's answer.
#![tactic(auto)]

ghost use Rattle.std.specs.Prelude.{◌≡◌, length};
ghost use Rattle.encoder_solution.specs.Answers.{PrintsAnswer, ReadsAnswer, assignment_checked};

use encoder_env::{EncoderEnv, well_formed};
use encoder_read::is_assignment;
use refusal::Refusal;
use solver_answer::Solution;
use solver_print::print_assignment;
use solver_reading::read_solution;

// Reads the text of a solver's answer. An assignment goes into the lent slice, which is left as it was where none is found or the answer is
// refused. The clauses are not tested.
pub fn read_answer(
    env: EncoderEnv,
    lits: &[u32],
    ends: &[u32],
    text: &[u8],
    assignment: &mut [u8],
) -> Result<Solution, Refusal>
    ensures { ReadsAnswer env lits.now ends.now text.now assignment.old result assignment.new }
{
    if !well_formed(env, lits.len(), ends.len()) {
        return Err(Refusal::IllFormed);
    }
    read_solution(env.variables, text, assignment)
}

// The checks of a print but for its room.
fn assignment_checks(
    env: EncoderEnv,
    lits: usize,
    ends: usize,
    assignment: &[u8],
) -> Result<(), Refusal>
    ensures { result ≡ assignment_checked env lits ends assignment.now }
{
    if !well_formed(env, lits, ends) {
        Err(Refusal::IllFormed)
    } else if !is_assignment(env.variables, assignment) {
        Err(Refusal::NoAssignment)
    } else {
        Ok(())
    }
}

// Prints an assignment as a solver's answer at the start of the lent slice, and answers how many bytes it has. Refused, the slice is left as it
// was.
pub fn print_answer(
    env: EncoderEnv,
    lits: &[u32],
    ends: &[u32],
    assignment: &[u8],
    out: &mut [u8],
) -> Result<usize, Refusal>
    ensures { PrintsAnswer env lits.now ends.now assignment.now out.old result out.new }
{
    assignment_checks(env, lits.len(), ends.len(), assignment)?;
    let size = print_assignment(assignment, out);
    if out.len() < size {
        return Err(Refusal::NoSpace);
    }
    Ok(size)
}
