// The public calls, after encoder/mod.rs, the two of a solver's answer (#103) and the figures of a sum and a product (#105). None has a
// `requires`: what does not fit is refused.
#![tactic(auto)]

pub use encoder_env::EncoderEnv;
pub use encoder_figures::{Figures, counts_told, linear_figures, mul_figures};
pub use encoder_linear::encode_linear;
pub use encoder_mul::encode_mul;
pub use encoder_read::{clause, get_int_value, open};
pub use encoder_solution::{print_answer, read_answer};
pub use encoder_var::{encode_binary, encode_list, encode_range};
pub use refusal::Refusal;
pub use solver_answer::Solution;
