#![tactic(auto)]

// Counting and reading bits of bytes. Inner: no entry point.
ghost use Rattle.std.specs.Prelude.{◌≡◌, ◌+◌, ◌-◌, ◌*◌, ◌/◌, ◌%◌, ◌^◌, ◌≤◌, ◌<◌, length};
ghost use Rattle.std.specs.Int.Count.{ones};
ghost use Rattle.common.specs.Bytes.{little_at};
ghost use Rattle.bitmap_spec.specs.Judge.{dense};
ghost use Rattle.bitmap_spec.specs.Ask.{below};
ghost use Rattle.bitmap_spec.specs.Bits.{bit, value};
ghost use Rattle.bitmap_spec.proofs.Tally.{tally};

use words::low_word;

// How many bits are set in the n bytes from `at` on.
fn ones_of(s: &[u8], at: usize, n: usize) -> u32
    requires { (n ≤ 32) × (at + n ≤ length s.now) }
    ensures { (result ≡ tally (bit s.now) (at * 8) (n * 8)) × (result ≤ n * 8) }
{
    let mut ones: u32 = 0;
    for i in 0..n {
        ones += u8::count_ones(s[at + i]);
    }
    ones
}

// How many bits are set in the word of the eight bytes from `at` on.
fn word_ones(s: &[u8], at: usize) -> u32
    requires { at + 8 ≤ length s.now }
    ensures { (result ≡ ones (little_at s.now at 8)) × (result ≤ 64) }
{
    u64::count_ones(low_word(s, at))
}

// How many members the dense container at byte `at` has, counted from the bits: the ones of its four words. A sum does
// not see the order of the bits, so the words are low byte first, which is faster.
pub fn dense_count(s: &[u8], at: usize) -> u32
    requires { at + 32 ≤ length s.now }
    ensures { result ≡ length (dense s.now at) }
{
    word_ones(s, at) + word_ones(s, at + 8) + word_ones(s, at + 16) + word_ones(s, at + 24)
}

// How many members of the dense container at byte `at` lie below j: the set bits before bit j.
pub fn dense_below(s: &[u8], at: usize, j: usize) -> u32
    requires { (at + 32 ≤ length s.now) × (j < 256) }
    ensures { result ≡ below j (dense s.now at) }
{
    let whole = ones_of(s, at, j / 8);
    let last = s[at + j / 8] as u32;
    whole + u32::count_ones(last >> (8 - j % 8))
}

// Bit j of a byte, or of the byte that holds bit j of many: bit 0 is the highest.
pub fn bit_of(b: u8, j: usize) -> u8
    ensures { result ≡ b / 2 ^ (7 - j % 8) % 2 }
{
    (b >> (7 - j % 8)) % 2
}

// The w bits that start r bits below the top of the sixteen of hi and lo.
fn cut16(hi: u8, lo: u8, r: u32, w: u32) -> u32
    requires { (r + w ≤ 16) × (w ≤ 8) }
    ensures { result ≡ (hi * 256 + lo) / 2 ^ (16 - r - w) % 2 ^ w }
{
    let x = hi as u32 * 256 + lo as u32;
    (x >> (16 - r - w)) % (1 << w)
}

// Value i of those packed from byte `at` on, w bits each, the first in the highest bits.
pub fn packed_value(s: &[u8], at: usize, w: u32, i: usize) -> u32
    requires { (w ≤ 8) × (i < 256) × (at * 8 + i * w + w ≤ length s.now * 8) }
    ensures { (result ≡ value s.now at w i) × (result < 2 ^ w) }
{
    if w == 0 {
        return 0;
    }
    let p = i * (w as usize);
    let q = at + p / 8;
    let r = (p % 8) as u32;
    if r + w <= 8 {
        return cut16(s[q], 0, r, w);
    }
    cut16(s[q], s[q + 1], r, w)
}
