// Numbers in bytes: either byte order at any width, two's complement, float patterns, varints, bits from the low end.
// Inner: no entry point.
#![tactic(auto)]

ghost use Rattle.std.specs.Prelude.{◌≡◌, ◌≤◌, ◌<◌, ◌+◌, ◌*◌, ◌^◌, ◌/◌, ◌%◌, length, leb};
ghost use Rattle.std.specs.Float.{binary32, binary64};
ghost use Rattle.std.specs.Float.Ieee.{to_bits};
ghost use Rattle.common.specs.Bytes.{little_at, big_at, signed_of, ceil8, low_bit, low_spare_zero};
ghost use Rattle.row_spec.specs.Varint.{varint_at, last_group};
ghost use Rattle.row_spec.specs.Value.{single, double, word_at};

use row_spec::{Field, ReadFault, Varint};

// A byte as a wide number.
pub fn wide(x: u8) -> u64
    ensures { (result ≡ x) × (result < 256) }
{
    x as u64
}

// Whether w bytes stand at `at`.
pub fn has(s: &[u8], at: usize, w: usize) -> bool
    ensures { result ≡ leb (at + w) (length s.now) }
{
    at <= s.len() && w <= s.len() - at
}

// The number of w bytes, highest first.
pub fn big_endian(s: &[u8], at: usize, w: usize) -> u64
    requires { (at + w ≤ length s.now) × (w ≤ 8) }
    ensures { (result ≡ big_at s.now at w) × (result < 256 ^ w) }
{
    let mut v: u64 = 0;
    for j in 0..w {
        v = v * 256 + wide(s[at + j]);
    }
    v
}

// The number of w bytes, lowest first.
pub fn little_endian(s: &[u8], at: usize, w: usize) -> u64
    requires { (at + w ≤ length s.now) × (w ≤ 8) }
    ensures { (result ≡ little_at s.now at w) × (result < 256 ^ w) }
{
    let mut v: u64 = 0;
    for j in (0..w).rev() {
        v = v * 256 + wide(s[at + j]);
    }
    v
}

// The number of w bytes, in either order.
pub fn word(big: bool, s: &[u8], at: usize, w: usize) -> u64
    requires { (at + w ≤ length s.now) × (w ≤ 8) }
    ensures { (result ≡ word_at big s.now at w) × (result < 256 ^ w) }
{
    if big {
        return big_endian(s, at, w);
    }
    little_endian(s, at, w)
}

// Two's complement of any width; half is the worth of its highest bit.
pub fn signed(n: u64, half: u64) -> i64
    requires { (half ≤ 9223372036854775808) × (n < 2 * half) }
    ensures { result ≡ signed_of half n }
{
    if n < half {
        n as i64
    } else {
        -1 - ((half - 1 - (n - half)) as i64)
    }
}

// The answer to a stored FLOAT.
pub fn float32(n: u32) -> Field
    ensures { result ≡ single n }
{
    if 0x7f80_0000 < n % 0x8000_0000 {
        return Field::NanF32(n);
    }
    Field::F32(f32::from_bits(n))
}

// The answer to a stored DOUBLE.
pub fn float64(n: u64) -> Field
    ensures { result ≡ double n }
{
    if 0x7ff0_0000_0000_0000 < n % 0x8000_0000_0000_0000 {
        return Field::NanF64(n);
    }
    Field::F64(f64::from_bits(n))
}

// Four bytes as a wide number.
fn wide32(x: u32) -> u64
    ensures { result ≡ x }
{
    x as u64
}

// The bits of a float; a NaN has the pattern that the language gives it.
pub fn float_bits(x: f32) -> u64
    ensures { result ≡ to_bits binary32 x }
{
    if x != x {
        return 0x7fc0_0000;
    }
    wide32(f32::to_bits(x))
}

// The bits of a double; a NaN has the pattern that the language gives it.
pub fn double_bits(x: f64) -> u64
    ensures { result ≡ to_bits binary64 x }
{
    if x != x {
        return 0x7ff8_0000_0000_0000;
    }
    f64::to_bits(x)
}

// A varint that ends in the group b, which has the weight w; the groups before it make v.
fn last_group(b: u64, w: u64, v: u64, next: usize) -> Result<Varint, ReadFault>
    requires { (b < 128) × (w ≤ 268435456) × (v < w) }
    ensures { result ≡ last_group b w v next }
{
    let n = v + b * w;
    if 4294967295 < n {
        return Err(ReadFault::IllFormed);
    }
    Ok(Varint {
        number: n as u32,
        next,
        shortest: 0 < b || w <= 1,
    })
}

// The varint at `at`.
pub fn varint(s: &[u8], at: usize) -> Result<Varint, ReadFault>
    ensures { result ≡ varint_at s.now at }
{
    let mut w: u64 = 1;
    let mut v: u64 = 0;
    for i in 0..5 {
        let p = at + i;
        if s.len() <= p {
            return Err(ReadFault::CutShort);
        }
        let b = wide(s[p]);
        if b < 128 {
            return last_group(b, w, v, p + 1);
        }
        v += (b - 128) * w;
        w *= 128;
    }
    Err(ReadFault::IllFormed)
}

// How far bit i is from the low end of its byte.
fn shift(i: usize) -> u8
    ensures { result ≡ i % 8 }
{
    (i % 8) as u8
}

// Bit i of the bits from byte `at` on, from the low end of each byte.
pub fn low_bit(s: &[u8], at: usize, i: usize) -> u8
    requires { at + i / 8 < length s.now }
    ensures { result ≡ low_bit s.now at i }
{
    let b = s[at + i / 8];
    (b >> shift(i)) % 2
}

// Bit i of the bits from byte `at` on; past the bytes it is 0.
pub fn bit_at(s: &[u8], at: usize, i: usize) -> u8
    ensures { (result ≡ low_bit s.now at i) × (result < 2) }
{
    if s.len() <= at || s.len() - at <= i / 8 {
        return 0;
    }
    low_bit(s, at, i)
}

// Whether the bits that fill n bits up to a byte are 0.
pub fn spare_zero(s: &[u8], at: usize, n: usize) -> bool
    requires { (at + ceil8 n ≤ length s.now) × (n ≤ 1048576) }
    ensures { result ≡ low_spare_zero s.now at n }
{
    let r = n % 8;
    r == 0 || s[at + n / 8] >> (r as u8) == 0
}
