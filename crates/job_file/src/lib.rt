// The run of a job file: field after field, each one call; the first refusal ends it.
#![tactic(auto)]

mod calls;

ghost use Rattle.std.specs.Prelude.{◌≡◌};
ghost use Rattle.encoder_read.specs.Calls.{opened};
ghost use Rattle.job_fields.specs.Fields.{field};
ghost use Rattle.job_file.specs.Run.{Leaves, field_outcome, job_run, left_run, run_file, state};

use encoder_env::EncoderEnv;
use encoder_read::opened;
use job_fields::fields;
use job_fields::fields::Field;
use refusal::Refusal;

// How many fields were accepted, the job that they left, and why the next was refused, if one was.
#[derive(Clone, Copy)]
pub struct JobAnswer {
    pub field: u32,
    pub env: EncoderEnv,
    pub answer: Result<(), Refusal>,
}

// The fields accepted so far, and the job that they left.
#[derive(Clone, Copy)]
struct Left {
    field: u32,
    env: EncoderEnv,
}

// One field: its tag, its length, its call.
fn one_field(
    index: u32,
    f: Field<'_>,
    env: EncoderEnv,
    lits: &mut [u32],
    ends: &mut [u32],
) -> Result<EncoderEnv, Refusal>
    ensures { Leaves (field_outcome index (state env lits.old ends.old) (field f.entry.tag f.entry.contents.now)) result lits.new ends.new }
{
    if !fields::right_place(index, f.tag) {
        return Err(Refusal::BadField);
    }
    if !fields::right_length(f.tag, f.contents.len()) {
        return Err(Refusal::BadField);
    }
    calls::call(f.tag, f.contents, env, lits, ends)
}

// Runs the fields; more than 8,192 bytes are refused first.
fn run_fields(
    bytes: &[u8],
    left: &mut Left,
    lits: &mut [u32],
    ends: &mut [u32],
) -> Result<(), Refusal>
    requires field { left.old.field ≡ 0 }
    requires env { left.old.env ≡ opened 0 }
    ensures { left_run left.new result lits.new ends.new ≡ run_file bytes.now lits.old ends.old }
{
    if 8192 < bytes.len() {
        return Err(Refusal::BadField);
    }
    let mut at: usize = 0;
    while let Some(f) = fields::field_at(bytes, at)? {
        left.env = one_field(left.field, f, left.env, lits, ends)?;
        left.field += 1;
        at = f.end;
    }
    if left.field == 0 {
        return Err(Refusal::BadField);
    }
    Ok(())
}

// Runs a job file on the lent stores.
pub fn run(bytes: &[u8], lits: &mut [u32], ends: &mut [u32]) -> JobAnswer
    ensures { job_run result lits.new ends.new ≡ run_file bytes.now lits.old ends.old }
{
    let mut left = Left {
        field: 0,
        env: opened(0),
    };
    let answer = run_fields(bytes, &mut left, lits, ends);
    JobAnswer {
        field: left.field,
        env: left.env,
        answer,
    }
}
