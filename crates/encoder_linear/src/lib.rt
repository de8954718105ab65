// The call for sums, after `encode_linear_log` of encoder/log.rs.
#![tactic(auto)]

ghost use Rattle.std.specs.Prelude.{◌≡◌};
ghost use Rattle.refusal.specs.Number.{status};
ghost use Rattle.encoder_answer.specs.Call.{rule};
ghost use Rattle.encoder_answer.specs.Outcome.{Answers, adds, status_of};
ghost use Rattle.encoder_linear.specs.Sums.{argument_checks, coef_fits, coefs_fit, constant_fits, linear_checks, linear_outcome, setting_known, settings_known, settings_rise, sum_encoded, terms_paired};

use clause_set::ClauseSet;
use encoder_answer::{AddingCall, add};
use encoder_env::{EncoderEnv, well_formed};
use log_turned::{encode_turned, turned_height};
use log_var::LogEncoding;
use norm_csp::CmpOp;
use refusal::Refusal;

// Whether no setting lacks its coefficient, and there are at most six terms.
fn terms_paired(terms: &[i32]) -> bool
    ensures { result ≡ terms_paired terms.now }
{
    terms.len() <= 12 && terms.len() % 2 == 0
}

// Whether a setting is one of the job's.
fn setting_known(count: u32, x: i32) -> bool
    ensures { result ≡ setting_known count x }
{
    if x < 0 {
        return false;
    }
    if x as u32 >= count {
        return false;
    }
    true
}

// Whether every setting is.
fn settings_known(count: u32, terms: &[i32]) -> bool
    ensures { result ≡ settings_known count terms.now }
{
    for i in 0..terms.len() / 2 {
        let x = terms[2 * i];
        if !setting_known(count, x) {
            return false;
        }
    }
    true
}

// Whether each setting is below the next.
fn settings_rise(terms: &[i32]) -> bool
    ensures { result ≡ settings_rise terms.now }
{
    for i in 1..terms.len() / 2 {
        let a = terms[2 * (i - 1)];
        let b = terms[2 * i];
        if b <= a {
            return false;
        }
    }
    true
}

// Whether a coefficient is not 0 and within ±255.
fn coef_fits(k: i32) -> bool
    ensures { result ≡ coef_fits k }
{
    if k < -255 {
        return false;
    }
    if 255 < k {
        return false;
    }
    k != 0
}

// Whether every coefficient is.
fn coefs_fit(terms: &[i32]) -> bool
    ensures { result ≡ coefs_fit terms.now }
{
    for i in 0..terms.len() / 2 {
        let k = terms[2 * i + 1];
        if !coef_fits(k) {
            return false;
        }
    }
    true
}

// Whether a constant is within ±1,000,000.
fn constant_fits(k: i32) -> bool
    ensures { result ≡ constant_fits k }
{
    if k < -1000000 {
        return false;
    }
    if 1000000 < k {
        return false;
    }
    true
}

// The checks of a sum, but for heights and space.
pub fn argument_checks(
    env: EncoderEnv,
    lits: usize,
    ends: usize,
    op: u32,
    constant: i32,
    terms: &[i32],
) -> Result<(), Refusal>
    ensures { status result ≡ status_of (argument_checks env lits ends op constant terms.now) }
{
    if !well_formed(env, lits, ends) {
        return Err(Refusal::IllFormed);
    }
    if 6 <= op {
        return Err(Refusal::UnknownOperation);
    }
    if !terms_paired(terms) {
        return Err(Refusal::BadTerms);
    }
    if !settings_known(env.count, terms) {
        return Err(Refusal::UnknownSetting);
    }
    if !settings_rise(terms) {
        return Err(Refusal::BadTerms);
    }
    if !coefs_fit(terms) {
        return Err(Refusal::BadCoefficient);
    }
    if !constant_fits(constant) {
        return Err(Refusal::BadConstant);
    }
    Ok(())
}

// The checks of a sum, but for space.
fn linear_checks(
    env: EncoderEnv,
    lits: usize,
    ends: usize,
    op: u32,
    constant: i32,
    terms: &[i32],
) -> Result<(), Refusal>
    ensures { status result ≡ status_of (linear_checks env lits ends op constant terms.now) }
{
    argument_checks(env, lits, ends, op, constant, terms)?;
    if 12 < turned_height(&env.encodings, CmpOp::from(op), constant, terms) {
        return Err(Refusal::ColumnTooTall);
    }
    Ok(())
}

// The constant plus every coefficient times its setting, compared with 0.
#[derive(Clone, Copy)]
struct Sum<'a> {
    op: u32,
    constant: i32,
    terms: &'a [i32],
}

impl AddingCall for Sum<'_> {
    ghost asks = { λ s env lits ends. linear_checks env lits ends s.op s.constant s.terms.now };

    ghost gives = { λ s env. rule (sum_encoded env s.op s.constant s.terms.now) };

    fn check(&self, env: EncoderEnv, lits: usize, ends: usize) -> Result<(), Refusal> {
        linear_checks(env, lits, ends, self.op, self.constant, self.terms)
    }

    fn write(&self, env: EncoderEnv, set: &mut ClauseSet<'_>) -> Option<LogEncoding> {
        encode_turned(
            set,
            &env.encodings,
            CmpOp::from(self.op),
            self.constant,
            self.terms,
        );
        None
    }
}

// A rule: the constant plus every coefficient times its setting is 0 (operation 0), not 0 (1), at least 0 (2), at most 0 (3), below 0 (4),
// above 0 (5). The terms are one list: setting, coefficient, in turn.
pub fn encode_linear(
    env: EncoderEnv,
    lits: &mut [u32],
    ends: &mut [u32],
    op: u32,
    constant: i32,
    terms: &[i32],
) -> Result<EncoderEnv, Refusal>
    ensures { Answers (linear_outcome env lits.old ends.old op constant terms.now) (adds env result) lits.new ends.new }
{
    add(
        &Sum {
            op,
            constant,
            terms,
        },
        env,
        lits,
        ends,
    )
}
