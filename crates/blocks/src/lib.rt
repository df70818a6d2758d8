#![tactic(auto)]

// A container as a block of 32 bytes whose bits are its members: loaded, joined, counted, written. Inner: no entry
// point.
ghost use Rattle.std.specs.Prelude.{◌≡◌, ℕ, ◌+◌, ◌*◌, ◌≤◌, ◌<◌, length, get_or, take, drop};
ghost use Rattle.common.specs.Lists.{mem, keep, from};
ghost use Rattle.bitmap_spec.specs.Bits.{bit, packed};
ghost use Rattle.bitmap_spec.specs.Judge.{dense};
ghost use Rattle.bitmap_spec.specs.Form.{descriptor_of, write_container};
ghost use Rattle.bitmap_spec.specs.Output.{written};
ghost use Rattle.bitmap_spec.proofs.Tally.{tally};
ghost use Rattle.bitmap_spec.specs.declared.Operation.TheVariants.{Intersection, Difference, SymmetricDifference};
ghost use Rattle.blocks.specs.Block.{block, mask, on_first, on_second, on_both, joined_bytes, joins, Counted, is_on, word_members};

use bitmap_spec::Operation;
use words::low_word;

// The block of the n members at `at`.
pub fn load_sparse(s: &[u8], at: usize, n: usize) -> [u8; 32]
    requires { (n < 32) × (at + n ≤ length s.now) }
    ensures { result ≡ block (λ p. mem p (take n (drop at s.now))) }
{
    let mut b = [0u8; 32];
    for i in 0..n {
        let x = s[at + i];
        let q = (x / 8) as usize;
        b[q] = b[q] | (128 >> (x % 8));
    }
    b
}

// What an operation does with the bits of the first, of the second and of both, as bytes of ones or zeros.
#[derive(Clone, Copy)]
struct Masks {
    first: u8,
    second: u8,
    both: u8,
}

// The masks of an operation.
fn masks_of(o: Operation) -> Masks
    ensures { (result.first ≡ mask (on_first o)) × (result.second ≡ mask (on_second o)) × (result.both ≡ mask (on_both o)) }
{
    match o {
        Operation::Union => Masks {
            first: 255,
            second: 255,
            both: 255,
        },
        Operation::Intersection => Masks {
            first: 0,
            second: 0,
            both: 255,
        },
        Operation::Difference => Masks {
            first: 255,
            second: 0,
            both: 255,
        },
        Operation::SymmetricDifference => Masks {
            first: 255,
            second: 255,
            both: 0,
        },
    }
}

// Writes 16 bytes of a, from `at` on, joined with 16 of b, from `bt` on, to out[to] and on; says how many bits are set.
// They are joined in an array of its own: all 16 are read before one is written, so the machine joins them at once.
fn join16(
    p: u8,
    q: u8,
    w: u8,
    a: &[u8],
    at: usize,
    b: &[u8],
    bt: usize,
    out: &mut [u8],
    to: usize,
) -> u8
    requires { (at + 16 ≤ length a.now) × (bt + 16 ≤ length b.now) × (to + 16 ≤ length out.old) }
    ensures { (result ≡ tally (bit (joined_bytes p q w a.now at b.now bt 16)) 0 128) × (result ≤ 128) × (out.new ≡ written out.old to (joined_bytes p q w a.now at b.now bt 16))
        × ((k : ℕ) → k < 16 → get_or (joined_bytes p q w a.now at b.now bt 16) k 0 < 256) }
{
    let mut v = [0u8; 16];
    let mut ones: u8 = 0;
    for i in 0..16 {
        let x = a[at + i];
        let y = b[bt + i];
        let z = (x & p) ^ (y & q) ^ (x & y & w);
        v[i] = z;
        ones += u8::count_ones(z) as u8;
    }
    // in a loop: `copy_from_slice` would keep the array in memory
    for j in 0..16 {
        out[to + j] = v[j];
    }
    ones
}

// Writes the block at `at` joined with the block at `bt` to out[to] and on, and says how many members it has.
pub fn join(
    o: Operation,
    a: &[u8],
    at: usize,
    b: &[u8],
    bt: usize,
    out: &mut [u8],
    to: usize,
) -> u32
    requires { (at + 32 ≤ length a.now) × (bt + 32 ≤ length b.now) × (to + 32 ≤ length out.old) }
    ensures { (result ≡ length (keep (joins o a.now at b.now bt) (from 0 256))) × (out.new ≡ written out.old to (block (joins o a.now at b.now bt))) }
{
    let m = masks_of(o);
    let x = join16(m.first, m.second, m.both, a, at, b, bt, out, to);
    let y = join16(
        m.first,
        m.second,
        m.both,
        a,
        at + 16,
        b,
        bt + 16,
        out,
        to + 16,
    );
    x as u32 + y as u32
}

// How many bits are set in what f makes of the four words of a from `at` on and those of b from `bt` on. Written out, so
// that the back end counts word by word with no loop.
fn count_by<F: Fn(u64, u64) -> u64>(a: &[u8], at: usize, b: &[u8], bt: usize, f: F) -> u32
    requires callable { F.IsAlwaysCallable f }
    requires room { (at + 32 ≤ length a.now) × (bt + 32 ≤ length b.now) }
    ensures { Counted (F.post f) a.now at b.now bt result }
{
    u64::count_ones(f(low_word(a, at), low_word(b, bt)))
        + u64::count_ones(f(low_word(a, at + 8), low_word(b, bt + 8)))
        + u64::count_ones(f(low_word(a, at + 16), low_word(b, bt + 16)))
        + u64::count_ones(f(low_word(a, at + 24), low_word(b, bt + 24)))
}

// How many members are in both of the blocks at `at` and at `bt`.
pub fn and_count(a: &[u8], at: usize, b: &[u8], bt: usize) -> u32
    requires { (at + 32 ≤ length a.now) × (bt + 32 ≤ length b.now) }
    ensures { result ≡ length (keep (joins Intersection a.now at b.now bt) (from 0 256)) }
{
    count_by(a, at, b, bt, |x, y| x & y)
}

// How many members are in the block at `at` and not in that at `bt`.
pub fn without_count(a: &[u8], at: usize, b: &[u8], bt: usize) -> u32
    requires { (at + 32 ≤ length a.now) × (bt + 32 ≤ length b.now) }
    ensures { result ≡ length (keep (joins Difference a.now at b.now bt) (from 0 256)) }
{
    count_by(a, at, b, bt, |x, y| x ^ (x & y))
}

// How many members are in one of the blocks at `at` and at `bt`.
pub fn xor_count(a: &[u8], at: usize, b: &[u8], bt: usize) -> u32
    requires { (at + 32 ≤ length a.now) × (bt + 32 ≤ length b.now) }
    ensures { result ≡ length (keep (joins SymmetricDifference a.now at b.now bt) (from 0 256)) }
{
    count_by(a, at, b, bt, |x, y| x ^ y)
}

// The 64 bits from byte `at` on as a number, the first byte the highest.
fn word(s: &[u8], at: usize) -> u64
    requires { at + 8 ≤ length s.now }
    ensures { result ≡ packed (bit s.now) (at * 8) 64 }
{
    let mut v: u64 = 0;
    for i in 0..8 {
        v = v * 256 + s[at + i] as u64;
    }
    v
}

// The four words of the block at `at`.
fn words(s: &[u8], at: usize) -> [u64; 4]
    requires { at + 32 ≤ length s.now }
    ensures { word_members result ≡ dense s.now at }
{
    [
        word(s, at),
        word(s, at + 8),
        word(s, at + 16),
        word(s, at + 24),
    ]
}

// Writes the members of word q from out[at] on, and says how many there are.
fn put_word(ws: [u64; 4], q: usize, out: &mut [u8], at: usize) -> usize
    requires { (q < 4) × (at + length (keep (is_on ws) (from (q * 64) 64)) ≤ length out.old) }
    ensures { (result ≡ length (keep (is_on ws) (from (q * 64) 64))) × (out.new ≡ written out.old at (keep (is_on ws) (from (q * 64) 64))) }
{
    let mut x = ws[q];
    let mut n: usize = 0;
    while x != 0 {
        let z = u64::leading_zeros(x);
        out[at + n] = (q * 64 + z as usize) as u8;
        x -= 1 << (63 - z);
        n += 1;
    }
    n
}

// Writes the members of four words from out[at] on, and says how many there are.
fn put_members(ws: [u64; 4], out: &mut [u8], at: usize) -> usize
    requires { at + length (word_members ws) ≤ length out.old }
    ensures { (result ≡ length (word_members ws)) × (out.new ≡ written out.old at (word_members ws)) }
{
    let mut n: usize = 0;
    for q in 0..4 {
        n += put_word(ws, q, out, at + n);
    }
    n
}

// Writes the members of the block at out[at] over it.
pub fn spread(out: &mut [u8], at: usize) -> usize
    requires { (at + 32 ≤ length out.old) × (length (dense out.old at) ≤ 32) }
    ensures { (result ≡ length (dense out.old at)) × (out.new ≡ written out.old at (dense out.old at)) }
{
    let ws = words(out, at);
    put_members(ws, out, at)
}

// Writes the container of a block, whose descriptor is d, from out[at] on, and says how many bytes it takes.
pub fn put_block(b: [u8; 32], d: u8, out: &mut [u8], at: usize) -> usize
    requires { (d ≡ descriptor_of (dense b 0)) × (at + length (write_container (dense b 0)) ≤ length out.old) }
    ensures { (result ≡ length (write_container (dense b 0))) × (out.new ≡ written out.old at (write_container (dense b 0))) }
{
    if d < 32 {
        return put_members(words(&b, 0), out, at);
    }
    out[at..at + 32].copy_from_slice(&b);
    32
}
