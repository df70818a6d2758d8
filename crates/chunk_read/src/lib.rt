#![tactic(auto)]

// Reading one chunk of descriptors. Inner: no entry point.
ghost use Rattle.std.specs.Prelude.{◌≡◌, ◌+◌, ◌-◌, ◌*◌, ◌/◌, ◌%◌, ◌^◌, ◌≤◌, ◌<◌, length, take, drop};
ghost use Rattle.common.specs.Lists.{rising};
ghost use Rattle.bitmap_spec.specs.Bits.{bits, value, spare_zero};
ghost use Rattle.bitmap_spec.specs.Judge.{descriptor, chunk, chunk_with, widths_ok, head_at};
ghost use Rattle.chunk_read.specs.Post.{Decoded, Wrote, primary_of, Plain, Patched, Arrays, Filled, Laid};

use bitmap_spec::ChunkHead;
use common::Refusal;

// Whether the offsets rise strictly and are below n.
fn is_rising(offsets: &[u8], n: usize) -> bool
    ensures { result ≡ rising n 0 offsets.now }
{
    let mut low: usize = 0;
    for &x in offsets {
        let offset = x as usize;
        if offset < low {
            return false;
        }
        if n <= offset {
            return false;
        }
        low = offset + 1;
    }
    true
}

// Whether the bits that fill n values of w bits up to a byte are 0.
pub fn spare_zero(s: &[u8], at: usize, w: u32, n: usize) -> bool
    requires { (w ≤ 8) × (n ≤ 256) × (at * 8 + n * w ≤ length s.now * 8) }
    ensures { result ≡ spare_zero s.now at w n }
{
    let p = n * (w as usize);
    let r = (p % 8) as u32;
    if r == 0 {
        return true;
    }
    let b = s[at + p / 8];
    (b as u32) % (1 << (8 - r)) == 0
}

// The w bytes at q as one number, the first the highest.
fn group(s: &[u8], q: usize, w: usize) -> u64
    requires { (w ≤ 8) × (q + w ≤ length s.now) }
    ensures { result ≡ bits s.now (q * 8) (w * 8) }
{
    let mut x: u64 = 0;
    for i in 0..w {
        x = x * 256 + s[q + i] as u64;
    }
    x
}

// Value t of the eight of w bits in x, the first in the highest bits.
fn nth(x: u64, w: u32, t: usize) -> u32
    requires { (w ≤ 8) × (t < 8) }
    ensures { (result ≡ x / 2 ^ (w * (7 - t)) % 2 ^ w) × (result < 256) }
{
    ((x >> (w * (7 - t as u32))) % (1 << w)) as u32
}

// Writes the eight values of w bits in x, each with m added, from out[to] on; gives the or of all of them: one test at
// the end finds a value over 63, and the loop has no branch.
fn put_eight(x: u64, w: u32, m: u32, out: &mut [u8], to: usize) -> u32
    requires { (w ≤ 8) × (m < 256) × (to + 8 ≤ length out.old) }
    ensures { Wrote (λ t. m + x / 2 ^ (w * (7 - t)) % 2 ^ w) 0 8 to out.old out.new result }
{
    let mut any: u32 = 0;
    for t in 0..8 {
        let v = m + nth(x, w, t);
        any = any | v;
        out[to + t] = (v % 256) as u8;
    }
    any
}

// Writes whole * 8 values of w bits from byte `at` on, each with m added, from out[k] on; gives the or of all of them.
// Eight values are w whole bytes, read as one number: no value is cut at a byte.
fn groups(s: &[u8], at: usize, w: u32, m: u32, whole: usize, out: &mut [u8], k: usize) -> u32
    requires { (w ≤ 8) × (m < 256) × (whole ≤ 32) × (at + whole * w ≤ length s.now) × (k + whole * 8 ≤ length out.old) }
    ensures { Wrote (primary_of s.now at w m) 0 (whole * 8) k out.old out.new result }
{
    let wide = w as usize;
    let mut any: u32 = 0;
    for g in 0..whole {
        let x = group(s, at + g * wide, wide);
        any = any | put_eight(x, w, m, out, k + g * 8);
    }
    any
}

// The same of one bit each. A loop of its own, since the back end knows this width.
fn bytes(s: &[u8], at: usize, m: u32, whole: usize, out: &mut [u8], k: usize) -> u32
    requires { (m < 256) × (at + whole ≤ length s.now) × (k + whole * 8 ≤ length out.old) }
    ensures { Wrote (primary_of s.now at 1 m) 0 (whole * 8) k out.old out.new result }
{
    let mut any: u32 = 0;
    for g in 0..whole {
        let x = s[at + g] as u64;
        any = any | put_eight(x, 1, m, out, k + g * 8);
    }
    any
}

// The same of no bits, n values, one at least.
fn repeat(m: u32, n: usize, out: &mut [u8], k: usize) -> u32
    requires { (m < 256) × (1 ≤ n) × (k + n ≤ length out.old) }
    ensures { Wrote (λ i. m) 0 n k out.old out.new result }
{
    out[k..k + n].fill(m as u8);
    m
}

// The same of few values. Each copies the one before it: of that the back end makes no call of memset, which would take
// a quarter of the check of a short bitmap.
fn repeat_few(m: u32, n: usize, out: &mut [u8], k: usize) -> u32
    requires { (m < 256) × (k + n ≤ length out.old) }
    ensures { Wrote (λ i. m) 0 n k out.old out.new result }
{
    if n == 0 {
        return 0;
    }
    out[k] = (m % 256) as u8;
    let mut any = m;
    for i in 1..n {
        any = any | m;
        out[k + i] = out[k + i - 1];
    }
    any
}

// The values first to n - 1, one by one.
fn rest(
    s: &[u8],
    at: usize,
    w: u32,
    m: u32,
    first: usize,
    n: usize,
    out: &mut [u8],
    k: usize,
) -> u32
    requires { (w ≤ 8) × (m < 256) × (n ≤ 256) × (at * 8 + n * w ≤ length s.now * 8) × (k + n ≤ length out.old) × (first ≤ n) }
    ensures { Wrote (primary_of s.now at w m) first n k out.old out.new result }
{
    let mut any: u32 = 0;
    for i in first..n {
        let v = m + bits::packed_value(s, at, w, i);
        any = any | v;
        out[k + i] = (v % 256) as u8;
    }
    any
}

// The first whole * 8 primary values.
fn eights(s: &[u8], h: ChunkHead, whole: usize, out: &mut [u8], k: usize) -> u32
    requires { (h.b1 ≤ 8) × (h.m < 256) × (whole ≤ 32) × (h.primary + whole * h.b1 ≤ length s.now) × (k + whole * 8 ≤ length out.old) }
    ensures { Wrote (primary_of s.now h.primary h.b1 h.m) 0 (whole * 8) k out.old out.new result }
{
    if h.b1 == 1 {
        return bytes(s, h.primary, h.m, whole, out, k);
    }
    groups(s, h.primary, h.b1, h.m, whole, out, k)
}

// The n primary values, each with m added.
fn primary(s: &[u8], h: ChunkHead, n: usize, out: &mut [u8], k: usize) -> u32
    requires { (h.m < 256) × (k + n ≤ length out.old) × Arrays s.now h n }
    ensures { Wrote (primary_of s.now h.primary h.b1 h.m) 0 n k out.old out.new result }
{
    if h.b1 == 0 {
        if n < 8 {
            return repeat_few(h.m, n, out, k);
        }
        return repeat(h.m, n, out, k);
    }
    let any = eights(s, h, n / 8, out, k);
    any | rest(s, h.primary, h.b1, h.m, n / 8 * 8, n, out, k)
}

// Adds the exceptions' parts to the primary values, in their order; false at the first sum over 63.
fn patch(s: &[u8], h: ChunkHead, n: usize, out: &mut [u8], k: usize) -> bool
    requires { (k + n ≤ length out.old) × Arrays s.now h n × Plain s.now h n k out.old }
    ensures { Patched s.now h n k out.old out.new result }
{
    for j in 0..h.e {
        let x = k + s[h.offsets + j] as usize;
        let v = out[x] as u32 + (bits::packed_value(s, h.parts, h.b2, j) << h.b1);
        if 63 < v {
            return false;
        }
        out[x] = v as u8;
    }
    true
}

// Writes the n descriptors from out[k] on; false if one is over 63.
fn fill(s: &[u8], h: ChunkHead, n: usize, out: &mut [u8], k: usize) -> bool
    requires { (h.m < 256) × (k + n ≤ length out.old) × Arrays s.now h n }
    ensures { Filled (descriptor s.now h) n k out.old out.new result }
{
    if 63 < primary(s, h, n, out, k) {
        return false;
    }
    patch(s, h, n, out, k)
}

// The rest of a chunk, after its three bytes and the rule on widths: refusals 4, 6, 7, 8.
fn chunk_with(s: &[u8], n: usize, h: ChunkHead, out: &mut [u8], k: usize) -> Result<usize, Refusal>
    requires { (h.m < 256) × (k + n ≤ length out.old) × Laid (length s.now) n h }
    ensures { Decoded (chunk_with s.now n h) out.old out.new k n result }
{
    let end = h.parts + (h.e * (h.b2 as usize) + 7) / 8;
    if s.len() < end {
        return Err(Refusal::ChunkCut);
    }
    if !is_rising(&s[h.offsets..h.parts], n) {
        return Err(Refusal::ChunkOffsets);
    }
    if !spare_zero(s, h.primary, h.b1, n) {
        return Err(Refusal::ChunkSpare);
    }
    if !spare_zero(s, h.parts, h.b2, h.e) {
        return Err(Refusal::ChunkSpare);
    }
    if !fill(s, h, n, out, k) {
        return Err(Refusal::ChunkDescriptor);
    }
    Ok(end)
}

// The rule on a chunk's widths.
pub fn widths_ok(h: ChunkHead) -> bool
    requires { (h.b1 < 16) × (h.b2 < 16) }
    ensures { result ≡ widths_ok h }
{
    if 8 < h.b1 + h.b2 {
        return false;
    }
    if h.b1 == 8 {
        return h.e == 0;
    }
    true
}

// The three bytes at `at` of a chunk of n descriptors, and where its arrays start.
pub fn head_at(s: &[u8], at: usize, n: usize) -> ChunkHead
    requires { (at + 3 ≤ length s.now) × (n ≤ 256) }
    ensures { (result ≡ head_at s.now at n) × (result.e < 256) × (result.m < 256) }
{
    let first = s[at];
    let b1 = (first % 16) as u32;
    let e = s[at + 1] as usize;
    let offsets = at + 3 + (n * (b1 as usize) + 7) / 8;
    ChunkHead {
        b1,
        b2: (first / 16) as u32,
        e,
        m: s[at + 2] as u32,
        primary: at + 3,
        offsets,
        parts: offsets + e,
    }
}

// The chunk of n descriptors at `at`: written from out[k] on, or refused.
pub fn chunk_at(s: &[u8], at: usize, n: usize, out: &mut [u8], k: usize) -> Result<usize, Refusal>
    requires { (at ≤ length s.now) × (n ≤ 256) × (k + n ≤ length out.old) }
    ensures { Decoded (chunk s.now at n) out.old out.new k n result }
{
    if s.len() < at + 3 {
        return Err(Refusal::ChunkCut);
    }
    let h = head_at(s, at, n);
    if !widths_ok(h) {
        return Err(Refusal::ChunkWidths);
    }
    chunk_with(s, n, h, out, k)
}
