// A print written whole or not at all. Each function answers how many bytes the text has; where the slice is shorter, it is not touched.
ghost use Rattle.std.specs.Prelude.{length, ◌≤◌};
ghost use Rattle.text.specs.Bytes.{Printed};
ghost use Rattle.dimacs.specs.Dimacs.{print_of, refused};

use super::lengths::{dimacs_length, refused_length};
use encoder_env::EncoderEnv;
use text::Writer;

// The print of a job and its stores.
pub fn print_dimacs(out: &mut [u8], env: EncoderEnv, lits: &[u32], ends: &[u32]) -> usize
    requires { length lits.now ≤ 16777216 }
    ensures { Printed (print_of env lits.now ends.now) out.old result out.new }
{
    let size = dimacs_length(env, lits, ends);
    if size <= out.len() {
        super::put_dimacs(&mut Writer::new(out), env, lits, ends);
    }
    size
}

// The line of a refusal.
pub fn print_refused(out: &mut [u8], field: u32, status: u32) -> usize
    ensures { Printed (refused field status) out.old result out.new }
{
    let size = refused_length(field, status);
    if size <= out.len() {
        super::put_refused(&mut Writer::new(out), field, status);
    }
    size
}
