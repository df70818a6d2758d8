#![tactic(auto)]

// Bytes copied from one slice to another, and moved up or down within one. Inner: no entry point.
ghost use Rattle.std.specs.Prelude.{◌≡◌, ◌+◌, ◌≤◌, length, take, drop};
ghost use Rattle.bitmap_spec.specs.Output.{written};

// Copies the n bytes of s from `from` on to out[to] and on.
pub fn copy_part(s: &[u8], from: usize, n: usize, out: &mut [u8], to: usize)
    requires { (from + n ≤ length s.now) × (to + n ≤ length out.old) }
    ensures { out.new ≡ written out.old to (take n (drop from s.now)) }
{
    out[to..to + n].copy_from_slice(&s[from..from + n]);
}

// Copies the n bytes of s from `from` on to s[to] and on, by way of part.
fn shift(s: &mut [u8], from: usize, to: usize, n: usize, part: &mut [u8])
    requires { (from + n ≤ length s.old) × (to + n ≤ length s.old) × (n ≤ length part.old) }
    ensures { s.new ≡ written s.old to (take n (drop from s.old)) }
{
    copy_part(s, from, n, part, 0);
    copy_part(part, 0, n, s, to);
}

// Moves the n bytes of s from `from` on up to `to`: the last first, 1,024 at a time, so that each is read before it
// is written over. `copy_within` would move byte by byte where the two places lie close.
pub fn move_up(s: &mut [u8], from: usize, to: usize, n: usize)
    requires { (from ≤ to) × (to + n ≤ length s.old) }
    ensures { s.new ≡ written s.old to (take n (drop from s.old)) }
{
    let mut part = [0u8; 1024];
    let mut i = n;
    // a step of 1,024
    while 1024 <= i {
        i -= 1024;
        shift(s, from + i, to + i, 1024, &mut part);
    }
    shift(s, from, to, i, &mut part);
}

// Moves the n bytes of s from `from` on down to `to`: the first first, so that each is read before it is written over.
pub fn move_down(s: &mut [u8], from: usize, to: usize, n: usize)
    requires { (to ≤ from) × (from + n ≤ length s.old) }
    ensures { s.new ≡ written s.old to (take n (drop from s.old)) }
{
    if from != to {
        s.copy_within(from..from + n, to);
    }
}
