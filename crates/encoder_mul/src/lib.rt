// The call for products, after `encode_mul_log` of encoder/log.rs.
#![tactic(auto)]

ghost use Rattle.std.specs.Prelude.{◌≡◌};
ghost use Rattle.refusal.specs.Number.{status};
ghost use Rattle.encoder_answer.specs.Call.{rule};
ghost use Rattle.encoder_answer.specs.Outcome.{Answers, adds, status_of};
ghost use Rattle.encoder_mul.specs.Products.{argument_checks, mul_checks, mul_outcome, product_encoded};

use clause_set::ClauseSet;
use encoder_answer::{AddingCall, add};
use encoder_env::{EncoderEnv, well_formed};
use log_product::{encode_mul_log, mul_height};
use log_var::LogEncoding;
use refusal::Refusal;

// The checks of a product, but for heights and space.
pub fn argument_checks(
    env: EncoderEnv,
    lits: usize,
    ends: usize,
    x: u32,
    y: u32,
    m: u32,
) -> Result<(), Refusal>
    ensures { status result ≡ status_of (argument_checks env lits ends x y m) }
{
    if !well_formed(env, lits, ends) {
        return Err(Refusal::IllFormed);
    }
    if x >= env.count {
        return Err(Refusal::UnknownSetting);
    }
    if y >= env.count {
        return Err(Refusal::UnknownSetting);
    }
    if m >= env.count {
        return Err(Refusal::UnknownSetting);
    }
    Ok(())
}

// The checks of a product, but for space.
fn mul_checks(
    env: EncoderEnv,
    lits: usize,
    ends: usize,
    x: u32,
    y: u32,
    m: u32,
) -> Result<(), Refusal>
    ensures { status result ≡ status_of (mul_checks env lits ends x y m) }
{
    argument_checks(env, lits, ends, x, y, m)?;
    if 12 < mul_height(&env.encodings, x, y, m) {
        return Err(Refusal::ColumnTooTall);
    }
    Ok(())
}

// Setting x times setting y is setting m.
#[derive(Clone, Copy)]
struct Product {
    x: u32,
    y: u32,
    m: u32,
}

impl AddingCall for Product {
    ghost asks = { λ p env lits ends. mul_checks env lits ends p.x p.y p.m };

    ghost gives = { λ p env. rule (product_encoded env p.x p.y p.m) };

    fn check(&self, env: EncoderEnv, lits: usize, ends: usize) -> Result<(), Refusal> {
        mul_checks(env, lits, ends, self.x, self.y, self.m)
    }

    fn write(&self, env: EncoderEnv, set: &mut ClauseSet<'_>) -> Option<LogEncoding> {
        encode_mul_log(set, &env.encodings, self.x, self.y, self.m);
        None
    }
}

// A rule: setting x times setting y is setting m.
pub fn encode_mul(
    env: EncoderEnv,
    lits: &mut [u32],
    ends: &mut [u32],
    x: u32,
    y: u32,
    m: u32,
) -> Result<EncoderEnv, Refusal>
    ensures { Answers (mul_outcome env lits.old ends.old x y m) (adds env result) lits.new ends.new }
{
    add(&Product { x, y, m }, env, lits, ends)
}
