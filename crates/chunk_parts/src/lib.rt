#![tactic(auto)]

// A chunk's values less m, and the offsets and high parts of its exceptions. Inner: no entry point.
ghost use Rattle.std.specs.Prelude.{◌≡◌, map, ℕ, ◌+◌, ◌-◌, ◌*◌, ◌/◌, ◌%◌, ◌^◌, ◌≤◌, ◌<◌, length, get_or};
ghost use Rattle.bitmap_spec.specs.Output.{written};
ghost use Rattle.chunk_parts.specs.Kept.{offsets};

// The descriptors less m.
pub fn less(ds: &[u8], m: u8, vs: &mut [u8]) -> usize
    requires { (length ds.now ≤ length vs.old) × ((i : ℕ) → i < length ds.now → m ≤ get_or ds.now i 0) }
    ensures { (result ≡ length ds.now) × (vs.new ≡ written vs.old 0 (map (λ d. d - m) ds.now)) }
{
    for (i, &d) in ds.iter().enumerate() {
        vs[i] = d - m;
    }
    ds.len()
}

// The offsets of the widths over b, from out[at] on.
pub fn put_offsets(ws: &[u8], b: u32, out: &mut [u8], at: usize) -> usize
    requires { (length ws.now ≤ 256) × (b < 8) × (at + length (offsets ws.now b (length ws.now)) ≤ length out.old) }
    ensures { (result ≡ length (offsets ws.now b (length ws.now))) × (out.new ≡ written out.old at (offsets ws.now b (length ws.now))) }
{
    let narrow = b as u8;
    let mut e: usize = 0;
    for (i, &w) in ws.iter().enumerate() {
        if narrow < w {
            out[at + e] = i as u8;
            e += 1;
        }
    }
    e
}

// The bits above b of the values at the offsets.
pub fn high_parts(vs: &[u8], b: u32, offs: &[u8], out: &mut [u8]) -> usize
    requires { (length offs.now ≤ length out.old) × (b < 8) × ((j : ℕ) → j < length offs.now → get_or offs.now j 0 < length vs.now) }
    ensures { (result ≡ length offs.now) × (out.new ≡ written out.old 0 (map (λ i. get_or vs.now i 0 / 2 ^ b) offs.now)) }
{
    for (j, &i) in offs.iter().enumerate() {
        out[j] = vs[i as usize] >> b;
    }
    offs.len()
}
