// The greatest height of a column that a rule reaches, on a job and stores of these lengths.
ghost use Rattle.std.specs.Prelude.{◌≡◌};
ghost use Rattle.bench_values.specs.Heights.{product_height, sum_height};

use encoder_env::{EncoderEnv, well_formed};
use encoder_linear::argument_checks;
use log_product::mul_height;
use log_turned::turned_height;
use norm_csp::CmpOp;

// Of a sum: 0 where it is refused before 13 is tested.
pub fn sum_height(
    env: EncoderEnv,
    lits: usize,
    ends: usize,
    op: u32,
    constant: i32,
    terms: &[i32],
) -> u32
    ensures { result ≡ sum_height env lits ends op constant terms.now }
{
    match argument_checks(env, lits, ends, op, constant, terms) {
        Ok(()) => turned_height(&env.encodings, CmpOp::from(op), constant, terms),
        Err(_) => 0,
    }
}

// Of a product: 0 where it is refused before 13 is tested.
pub fn product_height(env: EncoderEnv, lits: usize, ends: usize, x: u32, y: u32, m: u32) -> u32
    ensures { result ≡ product_height env lits ends x y m }
{
    if !well_formed(env, lits, ends) || x >= env.count || y >= env.count || m >= env.count {
        return 0;
    }
    mul_height(&env.encodings, x, y, m)
}
