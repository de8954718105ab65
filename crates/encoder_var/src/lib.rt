// The calls that make a setting, after `encode_var_log` of encoder/log.rs.
#![tactic(auto)]

mod kinds;

ghost use Rattle.std.specs.Prelude.{◌≡◌};
ghost use Rattle.norm_csp.specs.Domain.{binary, list, range};
ghost use Rattle.encoder_answer.specs.Outcome.{Answers, adds};
ghost use Rattle.encoder_var.specs.Settings.{setting_outcome};

use crate::kinds::{Binary, List, NewSetting, Range};
use encoder_answer::add;
use encoder_env::EncoderEnv;
use refusal::Refusal;
use sat::Lit;

// A new setting: the whole numbers from `low` to `high`.
pub fn encode_range(
    env: EncoderEnv,
    lits: &mut [u32],
    ends: &mut [u32],
    low: i32,
    high: i32,
) -> Result<EncoderEnv, Refusal>
    ensures { Answers (setting_outcome env lits.old ends.old (range low high)) (adds env result) lits.new ends.new }
{
    add(&NewSetting(Range { low, high }), env, lits, ends)
}

// A new setting: one of the values.
pub fn encode_list(
    env: EncoderEnv,
    lits: &mut [u32],
    ends: &mut [u32],
    values: &[i32],
) -> Result<EncoderEnv, Refusal>
    ensures { Answers (setting_outcome env lits.old ends.old (list values.now)) (adds env result) lits.new ends.new }
{
    add(&NewSetting(List { values }), env, lits, ends)
}

// A new setting: t where the switch literal holds, else f.
pub fn encode_binary(
    env: EncoderEnv,
    lits: &mut [u32],
    ends: &mut [u32],
    cond: Lit,
    f: i32,
    t: i32,
) -> Result<EncoderEnv, Refusal>
    ensures { Answers (setting_outcome env lits.old ends.old (binary cond.0 f t)) (adds env result) lits.new ends.new }
{
    add(&NewSetting(Binary { cond, f, t }), env, lits, ends)
}
