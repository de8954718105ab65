// The job, after `EncoderEnv` of encoder/mod.rs, and whether it is well formed.
#![tactic(auto)]

ghost use Rattle.std.specs.Prelude.{◌≡◌, ◌≤◌};
ghost use Rattle.encoder_env.specs.WellFormed.{all_below, bounds_hold, encoding_holds, in_range, is_spare, lits_fit, record_holds, stores_within, well_formed};

use arithmetic::{bit_length, code, offset_of};
use log_var::LogEncoding;
use sat::Lit;

// Counts of switches, variables, clauses, literals and settings, and the settings' records.
#[derive(Clone, Copy)]
pub struct EncoderEnv {
    pub switches: u32,
    pub variables: u32,
    pub clauses: u32,
    pub literals: u32,
    pub count: u32,
    pub encodings: [LogEncoding; 32],
}

// Whether a value is within bounds.
pub fn in_range(z: i32) -> bool
    ensures { result ≡ in_range z }
{
    if z < -4095 {
        return false;
    }
    if 4095 < z {
        return false;
    }
    true
}

// Whether the values from `low` to `high` are.
pub fn bounds_hold(low: i32, high: i32) -> bool
    ensures { result ≡ bounds_hold low high }
{
    if !in_range(low) {
        return false;
    }
    if !in_range(high) {
        return false;
    }
    if high < low {
        return false;
    }
    code(offset_of(low), high) <= 4095
}

// Whether the two stores are within their bound.
pub fn stores_within(lits: usize, ends: usize) -> bool
    ensures { result ≡ stores_within lits ends }
{
    if 16777216 < lits {
        return false;
    }
    if 16777216 < ends {
        return false;
    }
    true
}

// The literals in use are below 2 × variables, unused places are 0.
fn lits_fit(lits: [Lit; 12], len: u32, variables: u32) -> bool
    requires { variables ≤ 65535 }
    ensures { result ≡ lits_fit variables len lits }
{
    for (i, l) in lits.iter().enumerate() {
        if i < len as usize {
            if 2 * variables <= l.0 {
                return false;
            }
        } else if l.0 != 0 {
            return false;
        }
    }
    true
}

// A record in use.
fn encoding_holds(e: LogEncoding, variables: u32) -> bool
    requires { variables ≤ 65535 }
    ensures { result ≡ encoding_holds variables e }
{
    let low = e.low;
    let high = e.high;
    let len = e.len;
    let lits = e.lits;
    if !bounds_hold(low, high) {
        return false;
    }
    let offset = offset_of(low);
    if e.offset != offset {
        return false;
    }
    if len != bit_length(code(offset, high)) {
        return false;
    }
    lits_fit(lits, len, variables)
}

// A spare record.
fn is_spare(e: LogEncoding) -> bool
    ensures { result ≡ is_spare e }
{
    let lits = e.lits;
    if e.low != 0 {
        return false;
    }
    if e.high != 0 {
        return false;
    }
    if e.offset != 0 {
        return false;
    }
    if e.len != 0 {
        return false;
    }
    lits_fit(lits, 0, 0)
}

// Every record is as its place asks.
fn records_hold(env: EncoderEnv) -> bool
    requires { env.variables ≤ 65535 }
    ensures { result ≡ all_below 32 (record_holds env) }
{
    for (i, e) in env.encodings.iter().enumerate() {
        if i < env.count as usize {
            if !encoding_holds(*e, env.variables) {
                return false;
            }
        } else if !is_spare(*e) {
            return false;
        }
    }
    true
}

// Whether the job is well formed with stores of these lengths, and these are within their bound.
pub fn well_formed(env: EncoderEnv, lits: usize, ends: usize) -> bool
    ensures { result ≡ well_formed env lits ends }
{
    if !stores_within(lits, ends) {
        return false;
    }
    if 64 < env.switches {
        return false;
    }
    if 65535 < env.variables {
        return false;
    }
    if env.variables < env.switches {
        return false;
    }
    if 32 < env.count {
        return false;
    }
    let literals = env.literals;
    if lits < literals as usize {
        return false;
    }
    let clauses = env.clauses;
    if ends < clauses as usize + 1 {
        return false;
    }
    records_hold(env)
}
