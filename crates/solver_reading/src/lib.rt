// A solver's answer read: its lines, once from the first to the last, then what they come to.
#![tactic(auto)]

ghost use Rattle.std.specs.Prelude.{◌≡◌, ◌==◌, is_some, length, map, position, replicate, ◌≤◌};
ghost use Rattle.std.specs.List.{list_all};
ghost use Rattle.lines.specs.Reading.{split};
ghost use Rattle.solver_answer.specs.Answer.{Reads};
ghost use Rattle.solver_lines.specs.Scans.{signed};
ghost use Rattle.solver_reading.specs.Reading.{after_line, after_lines, all_given, begun, byte, on_values, on_verdict, run, run_solution, run_whole, take_number, with_phase};

use refusal::Refusal;
use solver_answer::Solution;
use solver_lines::{Line, Number, line_of, number_of};

// Where a reading stands: before the `s` line, behind a satisfiable or an unsatisfiable one, or broken.
#[derive(Clone, Copy, Debug, PartialEq, Eq)]
pub enum Phase {
    Begun,
    Satisfiable,
    Unsatisfiable,
    Broken,
}

// What is kept of an answer but for the variables given.
#[derive(Clone, Copy)]
pub struct State {
    pub phase: Phase,
    // a 0 was read, and a number behind it
    pub seen: bool,
    pub late: bool,
    // a variable unknown or doubled
    pub wrong: bool,
}

impl State {
    // Nothing read.
    fn begun() -> State
        ensures { result ≡ begun }
    {
        State {
            phase: Phase::Begun,
            seen: false,
            late: false,
            wrong: false,
        }
    }

    // The state in another phase.
    fn in_phase(self, phase: Phase) -> State
        ensures { result ≡ with_phase self phase }
    {
        State { phase, ..self }
    }

    // An `s` line.
    fn on_verdict(self, phase: Phase) -> State
        ensures { result ≡ on_verdict self phase }
    {
        if self.phase == Phase::Begun {
            self.in_phase(phase)
        } else {
            self.in_phase(Phase::Broken)
        }
    }

    // Whether the answer is whole.
    fn is_whole(self) -> bool
        ensures { result ≡ run_whole self }
    {
        match self.phase {
            Phase::Satisfiable => self.seen && !self.late,
            Phase::Unsatisfiable => true,
            Phase::Begun | Phase::Broken => false,
        }
    }

    // A number taken: the variable that it gives must be known and open.
    fn take_number(self, m: Number, given: &mut [Option<bool>]) -> State
        requires { length given.old ≤ 65535 }
        ensures { run result given.new ≡ take_number (length given.old) (run self given.old) (signed m) }
    {
        let late = self.late || self.seen;
        if m.size == 0 {
            return State {
                seen: true,
                late,
                ..self
            };
        }
        let v = m.size as usize - 1;
        if given.len() <= v || given[v].is_some() {
            return State {
                late,
                wrong: true,
                ..self
            };
        }
        given[v] = Some(!m.negative);
        State { late, ..self }
    }

    // The numbers of a `v` line.
    fn on_values(self, numbers: &[u8], given: &mut [Option<bool>]) -> State
        requires { length given.old ≤ 65535 }
        ensures { run result given.new ≡ on_values (length given.old) (run self given.old) (split 32 numbers.now) }
    {
        if self.phase != Phase::Satisfiable {
            return self.in_phase(Phase::Broken);
        }
        let mut here = self;
        for piece in numbers.split(|b| *b == b' ') {
            let Some(m) = number_of(piece) else {
                return here.in_phase(Phase::Broken);
            };
            here = here.take_number(m, given);
        }
        here
    }

    // One line. A comment changes nothing.
    fn take_line(&mut self, l: &[u8], given: &mut [Option<bool>])
        requires { length given.old ≤ 65535 }
        ensures { run self.new given.new ≡ after_line (length given.old) (run self.old given.old) l.now }
    {
        match line_of(l) {
            Line::Comment => {}
            Line::Verdict(true) => *self = self.on_verdict(Phase::Satisfiable),
            Line::Verdict(false) => *self = self.on_verdict(Phase::Unsatisfiable),
            Line::Values(numbers) => *self = self.on_values(numbers, given),
            Line::Broken => *self = self.in_phase(Phase::Broken),
        }
    }

    // All lines.
    fn after_lines(self, text: &[u8], given: &mut [Option<bool>]) -> State
        requires { length given.old ≤ 65535 }
        ensures { run result given.new ≡ after_lines (length given.old) (run self given.old) (split 10 text.now) }
    {
        let mut here = self;
        let mut rest = text;
        while let Some(end) = line_end(rest) {
            let (line, behind) = rest.split_at(end);
            here.take_line(line, given);
            rest = &behind[1..];
        }
        // bytes behind the last line feed break the answer
        if rest.is_empty() {
            return here;
        }
        here.in_phase(Phase::Broken)
    }

    // Whether the answer is unsatisfiable or gives each variable once.
    fn gives_each(self, given: &[Option<bool>]) -> bool
        ensures { result ≡ all_given (run self given.now) }
    {
        self.phase != Phase::Satisfiable || (!self.wrong && all_given(given))
    }

    // What the reading comes to, by the variables given and the length of the lent slice.
    fn solution(self, given: &[Option<bool>], room: usize) -> Result<Solution, Refusal>
        ensures { result ≡ run_solution (length given.now) (run self given.now) room }
    {
        if !self.is_whole() {
            return Err(Refusal::NotWhole);
        }
        if !self.gives_each(given) {
            return Err(Refusal::NotGivenOnce);
        }
        if room != given.len() {
            return Err(Refusal::NoAssignment);
        }
        if self.phase == Phase::Satisfiable {
            return Ok(Solution::Assignment);
        }
        Ok(Solution::Unsatisfiable)
    }
}

// The place of the next line feed.
fn line_end(s: &[u8]) -> Option<usize>
    ensures { result ≡ position (λ b. b == 10) s.now }
{
    s.iter().position(|b| *b == b'\n')
}

// Whether each variable is given.
fn all_given(given: &[Option<bool>]) -> bool
    ensures { result ≡ list_all is_some given.now }
{
    given.iter().all(|g| g.is_some())
}

// The variables' bytes: 1 true, 0 false.
fn put_bytes(out: &mut [u8], given: &[Option<bool>])
    requires { length out.old ≡ length given.now }
    ensures { out.new ≡ map byte given.now }
{
    for (i, g) in given.iter().enumerate() {
        out[i] = u8::from(g.unwrap_or(false));
    }
}

// Reads an answer over as many variables as `given` holds, of which none is given yet.
fn read_over(answer: &[u8], given: &mut [Option<bool>], out: &mut [u8]) -> Result<Solution, Refusal>
    requires few { length given.old ≤ 65535 }
    requires open { given.old ≡ replicate (length given.old) None }
    ensures { Reads (length given.old) answer.now out.old result out.new }
{
    let st = State::begun().after_lines(answer, given);
    let solution = st.solution(given, out.len())?;
    if solution == Solution::Assignment {
        put_bytes(out, given);
    }
    Ok(solution)
}

// Reads a solver's answer over n variables. An assignment goes into `out`, which is as long.
pub fn read_solution(n: u32, answer: &[u8], out: &mut [u8]) -> Result<Solution, Refusal>
    requires { n ≤ 65535 }
    ensures { Reads n answer.now out.old result out.new }
{
    let mut given = [None; 65536];
    read_over(answer, &mut given[..n as usize], out)
}
