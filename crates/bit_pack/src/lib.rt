#![tactic(auto)]

// Values packed into bits, the first in the highest bits. Inner: no entry point.
ghost use Rattle.std.specs.Prelude.{◌≡◌, ◌+◌, ◌-◌, ◌*◌, ◌/◌, ◌%◌, ◌^◌, ◌≤◌, ◌<◌, length, get_or};
ghost use Rattle.common.specs.Bytes.{ceil8};
ghost use Rattle.common.specs.Lists.{table};
ghost use Rattle.bitmap_spec.specs.Bits.{packed, value_bit, pack_values};
ghost use Rattle.bitmap_spec.specs.Output.{written};

// The bits of acc, then the low w bits of v.
fn push(acc: u32, w: u32, v: u8) -> u32
    requires { (w ≤ 8) × (acc < 256) }
    ensures { result ≡ acc * 2 ^ w + v % 2 ^ w }
{
    let m: u32 = 1 << w;
    acc * m + v as u32 % m
}

// The eight bits above the lowest r.
fn high_byte(acc: u32, r: u32) -> u8
    requires { (r < 8) × (acc / 2 ^ r < 256) }
    ensures { result ≡ acc / 2 ^ r }
{
    (acc >> r) as u8
}

// The lowest r bits.
fn low_bits(acc: u32, r: u32) -> u32
    requires { r < 8 }
    ensures { result ≡ acc % 2 ^ r }
{
    acc % (1 << r)
}

// The r bits of acc as the highest of a byte.
fn last_byte(acc: u32, r: u32) -> u8
    requires { (0 < r) × (r < 8) × (acc * 2 ^ (8 - r) < 256) }
    ensures { result ≡ acc * 2 ^ (8 - r) }
{
    let m: u32 = 1 << (8 - r);
    (acc * m) as u8
}

// The low w bits of each of a few values, packed, from out[at] on.
fn put_few(vals: &[u8], w: u32, out: &mut [u8], at: usize) -> usize
    requires { (w ≤ 8) × (length vals.now ≤ 256) × (at + ceil8 (length vals.now * w) ≤ length out.old) }
    ensures { (result ≡ ceil8 (length vals.now * w)) × (out.new ≡ written out.old at (pack_values (λ i. get_or vals.now i 0) w (length vals.now))) }
{
    let mut acc: u32 = 0;
    let mut r: u32 = 0;
    let mut q: usize = 0;
    for i in 0..vals.len() {
        let all = push(acc, w, vals[i]);
        let have = r + w;
        if have < 8 {
            acc = all;
            r = have;
        } else {
            r = have - 8;
            out[at + q] = high_byte(all, r);
            acc = low_bits(all, r);
            q += 1;
        }
    }
    if r == 0 {
        return q;
    }
    out[at + q] = last_byte(acc, r);
    q + 1
}

// The low w bits of the eight values from i on as one number, the first the highest.
fn group_word(vals: &[u8], i: usize, w: u32) -> u64
    requires { (w ≤ 8) × (i + 8 ≤ length vals.now) }
    ensures { result ≡ packed (value_bit (λ t. get_or vals.now (i + t) 0) w 8) 0 (8 * w) }
{
    let m: u64 = 1 << w;
    let mut x: u64 = 0;
    for t in 0..8 {
        x = x * m + vals[i + t] as u64 % m;
    }
    x
}

// The w bytes of x, highest first, from out[at] on.
fn put_bytes(x: u64, w: u32, out: &mut [u8], at: usize)
    requires { (w ≤ 8) × (at + w ≤ length out.old) }
    ensures { out.new ≡ written out.old at (table (λ b. x / 2 ^ (8 * (w - 1 - b)) % 256) 0 w) }
{
    for b in 0..w {
        out[at + b as usize] = ((x >> (8 * (w - 1 - b))) % 256) as u8;
    }
}

// The low w bits of the values of g groups of eight, packed, from out[at] on: w bytes for each group. Eight values are
// one number and w whole bytes: no branch on what is left over of a byte.
fn put_groups(vals: &[u8], g: usize, w: u32, out: &mut [u8], at: usize) -> usize
    requires { (w ≤ 8) × (g ≤ 32) × (8 * g ≤ length vals.now) × (at + g * w ≤ length out.old) }
    ensures { (result ≡ g * w) × (out.new ≡ written out.old at (pack_values (λ i. get_or vals.now i 0) w (8 * g))) }
{
    let mut q: usize = 0;
    for j in 0..g {
        let x = group_word(vals, 8 * j, w);
        put_bytes(x, w, out, at + q);
        q += w as usize;
    }
    q
}

// The low w bits of each value, packed, from out[at] on.
pub fn put_packed(vals: &[u8], w: u32, out: &mut [u8], at: usize) -> usize
    requires { (w ≤ 8) × (length vals.now ≤ 256) × (at + ceil8 (length vals.now * w) ≤ length out.old) }
    ensures { (result ≡ ceil8 (length vals.now * w)) × (out.new ≡ written out.old at (pack_values (λ i. get_or vals.now i 0) w (length vals.now))) }
{
    if w == 0 {
        return 0;
    }
    let g = vals.len() / 8;
    let q = put_groups(vals, g, w, out, at);
    q + put_few(&vals[8 * g..], w, out, at + q)
}
