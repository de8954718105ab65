// How much space a rule would take: the figures of a sum or a product for a given job, with no store lent (document 02, #105).
#![tactic(auto)]

ghost use Rattle.std.specs.Prelude.{◌≡◌, ◌≤◌, IfSome};
ghost use Rattle.refusal.specs.Number.{status};
ghost use Rattle.encoder_figures.specs.Figures.{figured, linear_figures, mul_figures, size_figures};

use encoder_env::EncoderEnv;
use log_linear::RuleCounts;
use norm_csp::CmpOp;
use product_size::mul_size;
use refusal::Refusal;
use sum_size::turned_size;

// What a call would add: new variables, clauses and literal entries.
#[derive(Clone, Copy, Debug, PartialEq, Eq)]
pub struct Figures {
    pub variables: u32,
    pub clauses: u32,
    pub literals: u32,
}

// The counts that an answer is told by: a refusal has none.
pub fn counts_told(answer: Result<Figures, Refusal>) -> Figures
    ensures { figured answer ≡ record { status = status answer; variables = result.variables; clauses = result.clauses; literals = result.literals } }
{
    match answer {
        Ok(figures) => figures,
        Err(_) => Figures {
            variables: 0,
            clauses: 0,
            literals: 0,
        },
    }
}

// The figures of a rule whose arguments are right: 13 where a column is too tall.
fn figures_of(size: Option<RuleCounts>) -> Result<Figures, Refusal>
    requires { IfSome size (λ r. (r.used.clauses ≤ 100000000) × (r.used.lits ≤ 1073741824)) }
    ensures { result ≡ size_figures size }
{
    match size {
        Some(r) => {
            let used = r.used;
            Ok(Figures {
                variables: r.vars,
                clauses: used.clauses as u32,
                literals: used.lits as u32,
            })
        }
        None => Err(Refusal::ColumnTooTall),
    }
}

// The figures of a sum: what `encode_linear` would add. Its number is the call's but for 14 and 15; 1 is tested at the greatest stores.
pub fn linear_figures(
    env: EncoderEnv,
    op: u32,
    constant: i32,
    terms: &[i32],
) -> Result<Figures, Refusal>
    ensures { figured result ≡ linear_figures env op constant terms.now }
{
    encoder_linear::argument_checks(env, 16777216, 16777216, op, constant, terms)?;
    let encodings = env.encodings;
    figures_of(turned_size(encodings, CmpOp::from(op), constant, terms))
}

// The figures of a product: what `encode_mul` would add.
pub fn mul_figures(env: EncoderEnv, x: u32, y: u32, m: u32) -> Result<Figures, Refusal>
    ensures { figured result ≡ mul_figures env x y m }
{
    encoder_mul::argument_checks(env, 16777216, 16777216, x, y, m)?;
    let encodings = env.encodings;
    figures_of(mul_size(encodings, x, y, m))
}
