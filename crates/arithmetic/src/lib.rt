// Signed numbers at the border of the encoder: a setting's offset, codes and values, the two parts of a number, and bit lengths. Inside,
// numbers are unsigned.
#![tactic(auto)]

ghost use Rattle.std.specs.Prelude.{◌≡◌, ◌+◌, ◌<◌, ◌≤ℤ◌};
ghost use Rattle.arithmetic.specs.Bits.{bit_length};
ghost use Rattle.arithmetic.specs.Integers.{up, down};
ghost use Rattle.arithmetic.specs.Offset.{offset_of, code, value};

// How many bits k takes.
pub fn bit_length(k: u32) -> u32
    ensures { result ≡ bit_length k }
{
    u32::BITS - k.leading_zeros()
}

// The offset of a setting whose lowest value is `low`.
pub fn offset_of(low: i32) -> i32
    ensures { result ≡ offset_of low }
{
    low.min(0)
}

// The code of a value that is not below the offset.
pub fn code(offset: i32, z: i32) -> u32
    requires { (offset ≤ℤ z) × (up z < 1073741824) × (down offset < 1073741824) }
    ensures { result ≡ code offset z }
{
    (z - offset) as u32
}

// The value of a code.
pub fn value(offset: i32, k: u32) -> i32
    requires { (k < 1073741824) × (up offset < 1073741824) × (down offset < 1073741824) }
    ensures { result ≡ value offset k }
{
    (k as i32) + offset
}

// The part of a number above 0.
pub fn up(z: i32) -> u32
    requires { up z < 1073741824 }
    ensures { result ≡ up z }
{
    z.max(0) as u32
}

// The part of a number below 0.
pub fn down(z: i32) -> u32
    requires { down z < 1073741824 }
    ensures { result ≡ down z }
{
    (-z).max(0) as u32
}

// How far a number is from 0.
pub fn magnitude(z: i32) -> u32
    requires { (up z < 1073741824) × (down z < 1073741824) }
    ensures { result ≡ up z + down z }
{
    z.unsigned_abs()
}
