// The three settings as calls that add: the checks of their arguments, and their encoders.
ghost use Rattle.std.specs.Prelude.{◌≡◌, ◌≤◌};
ghost use Rattle.refusal.specs.Number.{status};
ghost use Rattle.norm_csp.specs.Domain.{IntVarRepresentation, binary, list, range};
ghost use Rattle.log_var.specs.Calls.{Ready, VarAdded};
ghost use Rattle.encoder_answer.specs.Outcome.{status_of};
ghost use Rattle.encoder_var.specs.Settings.{all_in_range, rising, setting_checks, setting_given, var_checks};

use clause_set::ClauseSet;
use encoder_answer::AddingCall;
use encoder_env::{EncoderEnv, bounds_hold, in_range, well_formed};
use log_var::LogEncoding;
use refusal::Refusal;
use sat::Lit;

// What a setting's call is given.
pub trait Setting {
    ghost repr: { Self → IntVarRepresentation };

    // The checks of the arguments.
    fn arguments(&self, switches: u32) -> Result<(), Refusal>
        requires { switches ≤ 64 }
        ensures { status result ≡ status_of (var_checks switches (repr self.now)) };

    // Its clauses into the set, and its record.
    fn encode(&self, set: &mut ClauseSet<'_>) -> LogEncoding
        requires { Ready (repr self.now) set.old }
        ensures { VarAdded (repr self.now) set.old result set.new };
}

// The whole numbers from `low` to `high`.
#[derive(Clone, Copy)]
pub struct Range {
    pub low: i32,
    pub high: i32,
}

impl Setting for Range {
    ghost repr = { λ s. range s.low s.high };

    fn arguments(&self, _switches: u32) -> Result<(), Refusal> {
        if !bounds_hold(self.low, self.high) {
            return Err(Refusal::OutOfBounds);
        }
        Ok(())
    }

    fn encode(&self, set: &mut ClauseSet<'_>) -> LogEncoding {
        log_var::encode_range(set, self.low, self.high)
    }
}

// One of the values.
#[derive(Clone, Copy)]
pub struct List<'a> {
    pub values: &'a [i32],
}

// Whether every value is within bounds.
fn all_in_range(values: &[i32]) -> bool
    ensures { result ≡ all_in_range values.now }
{
    for z in values {
        if !in_range(*z) {
            return false;
        }
    }
    true
}

// Whether each value is below the next.
fn is_rising(values: &[i32]) -> bool
    ensures { result ≡ rising values.now }
{
    for i in 1..values.len() {
        let a = values[i - 1];
        let b = values[i];
        if b <= a {
            return false;
        }
    }
    true
}

impl Setting for List<'_> {
    ghost repr = { λ s. list s.values.now };

    fn arguments(&self, _switches: u32) -> Result<(), Refusal> {
        let values = self.values;
        let n = values.len();
        if n < 1 {
            return Err(Refusal::BadList);
        }
        if 64 < n {
            return Err(Refusal::BadList);
        }
        if !all_in_range(values) {
            return Err(Refusal::OutOfBounds);
        }
        if !is_rising(values) {
            return Err(Refusal::BadList);
        }
        let low = values[0];
        let high = values[n - 1];
        if !bounds_hold(low, high) {
            return Err(Refusal::OutOfBounds);
        }
        Ok(())
    }

    fn encode(&self, set: &mut ClauseSet<'_>) -> LogEncoding {
        log_var::encode_list(set, self.values)
    }
}

// `t` where the switch literal holds, else `f`.
#[derive(Clone, Copy)]
pub struct Binary {
    pub cond: Lit,
    pub f: i32,
    pub t: i32,
}

impl Setting for Binary {
    ghost repr = { λ s. binary s.cond.0 s.f s.t };

    fn arguments(&self, switches: u32) -> Result<(), Refusal> {
        if self.cond.0 >= 2 * switches {
            return Err(Refusal::UnknownSwitch);
        }
        if !in_range(self.f) {
            return Err(Refusal::OutOfBounds);
        }
        if !in_range(self.t) {
            return Err(Refusal::OutOfBounds);
        }
        if self.t <= self.f {
            return Err(Refusal::NotRising);
        }
        if !bounds_hold(self.f, self.t) {
            return Err(Refusal::OutOfBounds);
        }
        Ok(())
    }

    fn encode(&self, set: &mut ClauseSet<'_>) -> LogEncoding {
        log_var::encode_binary(set, self.cond, self.f, self.t)
    }
}

// The checks of a setting, but for space.
fn setting_checks<S: Setting>(
    s: &S,
    env: EncoderEnv,
    lits: usize,
    ends: usize,
) -> Result<(), Refusal>
    ensures { status result ≡ status_of (setting_checks env lits ends (S.repr s.now)) }
{
    if !well_formed(env, lits, ends) {
        return Err(Refusal::IllFormed);
    }
    s.arguments(env.switches)?;
    if env.count >= 32 {
        return Err(Refusal::TableFull);
    }
    Ok(())
}

// A setting as a call that adds.
#[derive(Clone, Copy)]
pub struct NewSetting<S>(pub S);

impl<S: Setting> AddingCall for NewSetting<S> {
    ghost asks = { λ s env lits ends. setting_checks env lits ends (S.repr s.0) };

    ghost gives = { λ s env. setting_given env (S.repr s.0) };

    fn check(&self, env: EncoderEnv, lits: usize, ends: usize) -> Result<(), Refusal> {
        setting_checks(&self.0, env, lits, ends)
    }

    fn write(&self, _env: EncoderEnv, set: &mut ClauseSet<'_>) -> Option<LogEncoding> {
        Some(self.0.encode(set))
    }
}
