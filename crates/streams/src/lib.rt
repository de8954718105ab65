// Standard input, or what a reader gives, read to its end, with a failure told apart from the end; and what is said where reading or
// writing fails.
#![tactic(auto)]

ghost use Rattle.std.specs.Prelude.{length, ◌≤◌, IfOk};
ghost use Rattle.streams.specs.Input.{Took};

use std::io;
use std::io::Read;

// Reads standard input until the buffer is full or the input ends: how many bytes it put at the start of the buffer.
pub fn read_input<R: io::Input>(rt: &R, buf: &mut [u8]) -> io::Result<usize>
    ensures { IfOk result (λ n. n ≤ length buf.old) }
{
    let mut reader = rt.reader();
    read_from(&mut reader, buf)
}

// The same for what a reader gives.
pub fn read_from<R: Read>(reader: &mut R, buf: &mut [u8]) -> io::Result<usize>
    ensures within { IfOk result (λ n. n ≤ length buf.old) }
    ensures took { Took result (R.remaining reader.old) (R.remaining reader.new) buf.new }
{
    let mut n: usize = 0;
    while n < buf.len() {
        let more = reader.read(&mut buf[n..])?;
        if more == 0 {
            break;
        }
        n += more;
    }
    Ok(n)
}

// Hands standard input, up to the length of `buf`, to `answer`, which writes what it answers. Says where reading or writing failed.
pub fn answer_input<R: io::Input + Eprint, F: FnOnce(&[u8]) -> io::Result<()>>(
    rt: &R,
    buf: &mut [u8],
    answer: F,
)
    requires { F.IsAlwaysCallable answer }
{
    let Ok(n) = read_input(rt, buf) else {
        cannot_read(rt);
        return;
    };
    if answer(&buf[..n]).is_err() {
        cannot_write(rt);
    }
}

// Said on standard error where a read failed.
pub fn cannot_read<R: Eprint>(rt: &R) {
    let _ = rt.eprintln("cannot read standard input");
}

// Said on standard error where not all could be written.
pub fn cannot_write<R: Eprint>(rt: &R) {
    let _ = rt.eprintln("cannot write standard output");
}
