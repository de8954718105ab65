// The values of a job's settings and switches under an assignment, as text in a lent slice.
#![tactic(auto)]

ghost use Rattle.std.specs.Prelude.{◌≡◌};
ghost use Rattle.encoder_read.specs.Calls.{test_status};
ghost use Rattle.text.specs.Bytes.{Wrote, text as text_of, write};
ghost use Rattle.values_text.specs.Values.{setting_line, settings_from, switch_line, switches_from, values_text};

use encoder_env::EncoderEnv;
use text::Writer;

// The values of all settings and switches under an assignment that was tested. What passes the end of `out` is dropped, and the answer is then
// its length.
pub fn put_values(
    out: &mut [u8],
    env: EncoderEnv,
    lits: &[u32],
    ends: &[u32],
    assignment: &[u8],
) -> usize
    requires { test_status env lits.now ends.now assignment.now ≡ 0 }
    ensures { text_of out.new result ≡ write (text_of out.old 0) (values_text env lits.now ends.now assignment.now) }
{
    let mut w = Writer::new(out);
    put_settings(&mut w, env, lits, ends, assignment);
    put_switches(&mut w, assignment, env.switches);
    w.at
}

// The lines of the settings. A reading that is refused says 0.
fn put_settings(w: &mut Writer, env: EncoderEnv, lits: &[u32], ends: &[u32], assignment: &[u8])
    requires { test_status env lits.now ends.now assignment.now ≡ 0 }
    ensures { Wrote w.old (settings_from env lits.now ends.now assignment.now 0 env.count) w.new }
{
    for i in 0..env.count {
        let value = encoder_read::read_tested(env, lits, ends, i, assignment);
        put_setting_line(w, i, value.unwrap_or(0));
    }
}

// The lines of the switches below `count`.
fn put_switches(w: &mut Writer, assignment: &[u8], count: u32)
    ensures { Wrote w.old (switches_from assignment.now 0 count) w.new }
{
    for s in 0..count {
        let byte = assignment.get(s as usize).copied();
        put_switch_line(w, s, byte.unwrap_or(0));
    }
}

// A setting's number and value.
fn put_setting_line(w: &mut Writer, i: u32, z: i32)
    ensures { Wrote w.old (setting_line i z) w.new }
{
    w.put_bytes(b"setting ");
    w.put_decimal(i);
    w.put(b' ');
    w.put_integer(z);
    w.put(b'\n');
}

// A switch's number, and whether its byte b is 1.
fn put_switch_line(w: &mut Writer, s: u32, b: u8)
    ensures { Wrote w.old (switch_line s b) w.new }
{
    w.put_bytes(b"switch ");
    w.put_decimal(s);
    w.put_bytes(if b == 1 { b" yes\n" } else { b" no\n" });
}
