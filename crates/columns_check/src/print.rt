// What is printed: numbers, and clauses as the stores hold them.
ghost use Rattle.std.specs.Prelude.{◌≤◌, ◌<◌};

use clause_set::{ClauseSet, entry};
use std::io;
use text::Writer;

// A number behind a space, in one write.
pub fn show_number<R: Print>(rt: &R, n: u32) -> io::Result<()> {
    let mut out = [0u8; 12];
    let mut w = Writer::new(&mut out);
    w.put(b' ');
    w.put_decimal(n);
    rt.write_all(w.written())
}

// The literals of clause k: none where its ends do not lie in the store.
fn clause<'a>(set: &'a ClauseSet<'_>, k: usize) -> &'a [u32] {
    let begin = entry(set.ends, k) as usize;
    let end = entry(set.ends, k.saturating_add(1)) as usize;
    set.lits.get(begin..end).unwrap_or(&[])
}

// The clauses, each behind a bar, and their literals, each behind a space.
fn put_clauses(w: &mut Writer, set: &ClauseSet<'_>) {
    for k in 0..set.used.clauses {
        w.put_bytes(b" |");
        for l in clause(set, k) {
            w.put(b' ');
            w.put_decimal(*l);
        }
    }
}

// The check sum h, with another number.
fn digest(h: u64, x: u64) -> u64
    requires { (h < 2147483647) × (x ≤ 4294967296) }
    ensures { result < 2147483647 }
{
    (h * 1000003 + x) % 2147483647
}

// With a clause: its literals, each plus 1, and 0.
fn digest_clause(h: u64, lits: &[u32]) -> u64
    requires { h < 2147483647 }
    ensures { result < 2147483647 }
{
    let mut sum = h;
    for l in lits {
        sum = digest(sum, u64::from(*l) + 1);
    }
    digest(sum, 0)
}

// The check sum of the clauses.
fn digest_clauses(set: &ClauseSet<'_>) -> u64
    ensures { result < 2147483647 }
{
    let mut sum: u64 = 0;
    for k in 0..set.used.clauses {
        sum = digest_clause(sum, clause(set, k));
    }
    sum
}

// The clauses, or a check sum where there are many.
fn show_contents<R: Print>(rt: &R, set: &ClauseSet<'_>) -> io::Result<()> {
    let used = set.used;
    if used.lits > set.lits.len() || used.clauses >= set.ends.len() {
        return rt.write_all(b" too many");
    }
    if entry(set.ends, used.clauses) as usize != used.lits {
        return rt.write_all(b" wrong end");
    }
    if used.lits > 400 {
        rt.write_all(b" sum")?;
        return show_number(rt, digest_clauses(set) as u32);
    }
    let mut out = [0u8; 8192];
    let mut w = Writer::new(&mut out);
    put_clauses(&mut w, set);
    rt.write_all(w.written())
}

// How many clauses and literals, then these, and a line feed.
pub fn show_clauses<R: Print>(rt: &R, set: &ClauseSet<'_>) -> io::Result<()> {
    for n in [set.used.clauses, set.used.lits] {
        show_number(rt, u32::try_from(n).unwrap_or(u32::MAX))?;
    }
    show_contents(rt, set)?;
    rt.write_all(b"\n")
}
