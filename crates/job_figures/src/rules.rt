// The figures of the call that a field makes.
ghost use Rattle.std.specs.Prelude.{◌≡◌, length, ◌≤◌};
ghost use Rattle.encoder_figures.specs.Figures.{figured};
ghost use Rattle.job_file.specs.Calls.{call_of};
ghost use Rattle.job_figures.specs.FieldFigures.{call_figures, one_field_figures};

use encoder_env::EncoderEnv;
use encoder_figures::{Figures, linear_figures, mul_figures};
use job_fields::fields::Field;
use job_fields::{fields, numbers};
use refusal::Refusal;

// Tag 05: operation, constant, terms. More than six terms are refused whatever they are.
fn linear(env: EncoderEnv, s: &[u8]) -> Result<Figures, Refusal>
    requires { 5 ≤ length s.now }
    ensures { figured result ≡ call_figures env (call_of 5 s.now) }
{
    let op = u32::from(s[0]);
    let constant = numbers::signed_long(s, 1);
    let mut room = [0i32; 12];
    match numbers::terms(&s[5..], &mut room) {
        Some(n) => linear_figures(env, op, constant, &room[..n]),
        None => linear_figures(env, op, constant, &[0; 14]),
    }
}

// Tag 06: x, y, m.
fn mul(env: EncoderEnv, s: &[u8]) -> Result<Figures, Refusal>
    requires { length s.now ≡ 3 }
    ensures { figured result ≡ call_figures env (call_of 6 s.now) }
{
    let x = u32::from(s[0]);
    let y = u32::from(s[1]);
    let m = u32::from(s[2]);
    mul_figures(env, x, y, m)
}

// One field: its length, its tag, its call.
pub fn one_field(env: EncoderEnv, f: Field<'_>) -> Result<Figures, Refusal>
    ensures { figured result ≡ one_field_figures env f.entry.tag f.entry.contents.now }
{
    let s = f.contents;
    if !fields::right_length(f.tag, s.len()) {
        return Err(Refusal::BadField);
    }
    match f.tag {
        5 => linear(env, s),
        6 => mul(env, s),
        _ => Err(Refusal::BadField),
    }
}
