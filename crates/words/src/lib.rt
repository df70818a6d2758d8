#![tactic(auto)]

// Words: eight bytes as one number, for every format. Inner: no entry point.
ghost use Rattle.std.specs.Prelude.{◌≡◌, ℕ, ◌+◌, ◌≤◌, ◌<◌, length, get_or};
ghost use Rattle.common.specs.Bytes.{little_at};

// The eight bytes at `at` as one number, the first the lowest. In one sum, low byte first: the back end makes that one
// load, which it does not make of a loop, and the other order would cost a byte swap.
pub fn low_word(s: &[u8], at: usize) -> u64
    requires { at + 8 ≤ length s.now }
    ensures { result ≡ little_at s.now at 8 }
{
    (s[at] as u64)
        + (s[at + 1] as u64) * 256
        + (s[at + 2] as u64) * 65536
        + (s[at + 3] as u64) * 16777216
        + (s[at + 4] as u64) * 4294967296
        + (s[at + 5] as u64) * 1099511627776
        + (s[at + 6] as u64) * 281474976710656
        + (s[at + 7] as u64) * 72057594037927936
}

// How many of the eight bytes at `at` are 0 before the first that is not.
pub fn empty_bytes(s: &[u8], at: usize) -> usize
    requires { at + 8 ≤ length s.now }
    ensures { (result ≤ 8) × ((j : ℕ) → j < result → get_or s.now (at + j) 0 ≡ 0) }
{
    (u64::trailing_zeros(low_word(s, at)) / 8) as usize
}
