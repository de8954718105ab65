// The figures of one more field behind a job file: what a sum or a product would add (document 02, #105).
#![tactic(auto)]

mod rules;

ghost use Rattle.std.specs.Prelude.{◌≡◌};
ghost use Rattle.refusal.specs.Number.{status};
ghost use Rattle.encoder_figures.specs.Figures.{figured};
ghost use Rattle.job_fields.specs.Fields.{fields_of};
ghost use Rattle.job_figures.specs.FieldFigures.{field_figures, file_figures};

use encoder_env::EncoderEnv;
use encoder_figures::Figures;
use job_fields::fields;
use job_file::JobAnswer;
use refusal::Refusal;

// The figures of a field: 18 unless the bytes are exactly one, of tag 05 or 06 and of a right length.
pub fn field_figures(env: EncoderEnv, bytes: &[u8]) -> Result<Figures, Refusal>
    ensures { figured result ≡ field_figures env (fields_of bytes.now) }
{
    let Some(f) = fields::field_at(bytes, 0)? else {
        return Err(Refusal::BadField);
    };
    if f.end != bytes.len() {
        return Err(Refusal::BadField);
    }
    rules::one_field(env, f)
}

// The same behind a run: the file's own number where that is refused.
pub fn figures_behind(run: JobAnswer, bytes: &[u8]) -> Result<Figures, Refusal>
    ensures { figured result ≡ file_figures (status run.answer) run.env bytes.now }
{
    run.answer?;
    field_figures(run.env, bytes)
}
