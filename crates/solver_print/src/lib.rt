// The print of an assignment as a solver's answer, into a lent slice.
#![tactic(auto)]

ghost use Rattle.std.specs.Prelude.{◌≡◌, length, ◌≤◌};
ghost use Rattle.text.specs.Bytes.{Printed, Wrote};
ghost use Rattle.solver_answer.specs.Print.{print, signed, values_from};

use text::Writer;

// How many bytes a variable's number takes, with a minus where its byte is 0.
fn signed_length(x: u32, b: u8) -> usize
    ensures { (result ≡ length (signed x b)) × (result ≤ 11) }
{
    text::decimal_length(x) + usize::from(b == 0)
}

// How many bytes the print takes: 15 before the numbers, a space and a number each, 3 behind them.
fn print_length(assignment: &[u8]) -> usize
    requires { length assignment.now ≤ 65535 }
    ensures { result ≡ length (print assignment.now) }
{
    let mut size: usize = 18;
    for (i, b) in assignment.iter().enumerate() {
        size += signed_length(i as u32 + 1, *b) + 1;
    }
    size
}

// A variable's number, with a minus where its byte is 0.
fn put_signed(w: &mut Writer, x: u32, b: u8)
    ensures { Wrote w.old (signed x b) w.new }
{
    if b == 0 {
        w.put(b'-');
    }
    w.put_decimal(x);
}

// A space and a number for each byte, variable i as i + 1, then ` 0` and a line feed.
fn put_values(w: &mut Writer, assignment: &[u8])
    requires { length assignment.now ≤ 65535 }
    ensures { Wrote w.old (values_from 1 assignment.now) w.new }
{
    for (i, b) in assignment.iter().enumerate() {
        w.put(b' ');
        put_signed(w, i as u32 + 1, *b);
    }
    w.put_bytes(b" 0\n");
}

// The print, as far as it fits.
fn put_print(w: &mut Writer, assignment: &[u8])
    requires { length assignment.now ≤ 65535 }
    ensures { Wrote w.old (print assignment.now) w.new }
{
    w.put_bytes(b"s SATISFIABLE\nv");
    put_values(w, assignment);
}

// The print of an assignment, written whole or not at all: the answer is how many bytes the text has, also where the slice is shorter and is not touched.
pub fn print_assignment(assignment: &[u8], out: &mut [u8]) -> usize
    requires { length assignment.now ≤ 65535 }
    ensures { Printed (print assignment.now) out.old result out.new }
{
    let size = print_length(assignment);
    if size <= out.len() {
        put_print(&mut Writer::new(out), assignment);
    }
    size
}
