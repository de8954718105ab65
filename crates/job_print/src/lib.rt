// The text of a job file: the print of its clauses, or its refusal.
#![tactic(auto)]

ghost use Rattle.std.specs.Prelude.{◌≡◌, ◌≤◌, length, take};
ghost use Rattle.job_print.specs.Print.{FilePrinted, program_print};

// Runs the job file on the lent stores and answers how many bytes its text has. The text is written from the start of `out`, or not at
// all where `out` is shorter.
pub fn print_file(bytes: &[u8], lits: &mut [u32], ends: &mut [u32], out: &mut [u8]) -> usize
    ensures { FilePrinted bytes.now lits.old ends.old out.old result lits.new ends.new out.new }
{
    let a = job_file::run(bytes, lits, ends);
    match a.answer {
        Ok(()) => dimacs::print_dimacs(out, a.env, lits, ends),
        Err(e) => dimacs::print_refused(out, a.field, e.number()),
    }
}

// The same for the first n bytes of a program's input, on the program's own stores. The input is one byte longer than a job file may be, so
// that one that is too long is seen, and every text fits.
pub fn print_job(input: &[u8], n: usize, out: &mut [u8]) -> usize
    requires { (8193 ≤ length input.now) × (n ≤ length input.now) × (65551 ≤ length out.old) }
    ensures { (result ≤ length out.new) × (take result out.new ≡ program_print (take n input.now)) }
{
    let mut lits = [0u32; 8192];
    let mut ends = [0u32; 4096];
    print_file(&input[..n], &mut lits, &mut ends, out)
}
