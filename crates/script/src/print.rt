// What the run prints, written in pieces.
use encoder_env::EncoderEnv;
use log_var::LogEncoding;
use refusal::Refusal;
use std::io;
use text::Writer;

// `bad line N`
pub fn bad_line<R: Print>(rt: &R, number: u64) -> io::Result<()> {
    rt.write_all(b"bad line ")?;
    rt.print(number)?;
    rt.write_all(b"\n")
}

// A number behind a space. Most entries of a store have one digit.
fn put_number(w: &mut Writer, n: u32) {
    w.put(b' ');
    if n < 10 {
        w.put(b'0' + n as u8);
    } else {
        w.put_decimal(n);
    }
}

// A signed number behind a space.
fn put_signed(w: &mut Writer, z: i32) {
    w.put(b' ');
    w.put_integer(z);
}

// The line of a call's answer, but for its line feed.
pub fn answer<R: Print>(rt: &R, answer: Result<i32, Refusal>, env: &EncoderEnv) -> io::Result<()> {
    let told = script_calls::answer_told(answer);
    let mut out = [0u8; 64];
    let mut w = Writer::new(&mut out);
    w.put_decimal(told.status);
    put_signed(&mut w, told.value);
    put_number(&mut w, env.variables);
    put_number(&mut w, env.clauses);
    put_number(&mut w, env.literals);
    rt.write_all(w.written())
}

// What stands in front, and entries of a store or bytes of a slice, each behind a space. A piece is written where it has no room for
// one more.
pub fn numbers<R: Print, T: Copy + Into<u32>>(rt: &R, front: &[u8], all: &[T]) -> io::Result<()> {
    let mut out = [0u8; 4096];
    let mut w = Writer::new(&mut out);
    w.put_bytes(front);
    for n in all {
        if w.at > 4080 {
            rt.write_all(w.written())?;
            w.at = 0;
        }
        put_number(&mut w, (*n).into());
    }
    rt.write_all(w.written())
}

// A record: its literals, length, low, high and offset.
fn encoding<R: Print>(rt: &R, e: LogEncoding) -> io::Result<()> {
    let mut out = [0u8; 256];
    let mut w = Writer::new(&mut out);
    for l in e.lits {
        put_number(&mut w, l.0);
    }
    put_number(&mut w, e.len);
    put_signed(&mut w, e.low);
    put_signed(&mut w, e.high);
    put_signed(&mut w, e.offset);
    rt.write_all(w.written())
}

// `job ..`
pub fn job<R: Print>(rt: &R, env: &EncoderEnv) -> io::Result<()> {
    let counts = [
        env.switches,
        env.variables,
        env.clauses,
        env.literals,
        env.count,
    ];
    numbers(rt, b"job", &counts)?;
    for e in env.encodings {
        encoding(rt, e)?;
    }
    rt.write_all(b"\n")
}
