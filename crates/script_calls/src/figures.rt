// The words of figures, which lend no store: `size OP CONSTANT [SETTING COEFFICIENT]..` and `size_mul X Y M`.
use super::rules;
use encoder::Figures;
use encoder_env::EncoderEnv;
use refusal::Refusal;

// `size OP CONSTANT [SETTING COEFFICIENT]..`
#[inline(never)]
pub fn size(nums: &[i64], env: EncoderEnv) -> Option<Result<Figures, Refusal>> {
    let mut terms = [0i32; 4096];
    let s = rules::sum_of(nums, &mut terms)?;
    Some(encoder::linear_figures(env, s.op, s.constant, s.terms))
}

// `size_mul X Y M`
pub fn size_mul(nums: &[i64], env: EncoderEnv) -> Option<Result<Figures, Refusal>> {
    let p = rules::product_of(nums)?;
    Some(encoder::mul_figures(env, p.x, p.y, p.m))
}
