#![tactic(auto)]

// One chunk of descriptors, written. Inner: no entry point.
ghost use Rattle.std.specs.Prelude.{◌≡◌, [], ◌∷◌, map, ℕ, ◌+◌, ◌-◌, ◌*◌, ◌/◌, ◌%◌, ◌^◌, ◌≤◌, ◌<◌, length, get_or, take, drop, eqb};
ghost use Rattle.common.specs.Bytes.{ceil8};
ghost use Rattle.common.specs.Outcome.{pick};
ghost use Rattle.bitmap_spec.specs.Bits.{pack_values};
ghost use Rattle.bitmap_spec.specs.Form.{width, least, largest, cheapest, chunk_at, chunk_of, write_chunk};
ghost use Rattle.bitmap_spec.specs.Output.{written};
ghost use Rattle.bitmap_laws.proofs.Length.{size_at};
ghost use Rattle.bitmap_laws.proofs.Values.{AllLe};
ghost use Rattle.chunk_parts.specs.Kept.{offsets};
ghost use Rattle.chunk_write.specs.Exceptions.{exceptions_of};
ghost use Rattle.chunk_write.specs.Widths.{Chosen};

// Three bytes.
pub fn put3(out: &mut [u8], at: usize, x: u8, y: u8, z: u8) -> usize
    requires { at + 3 ≤ length out.old }
    ensures { (result ≡ 3) × (out.new ≡ written out.old at (x ∷ y ∷ z ∷ [])) }
{
    out[at] = x;
    out[at + 1] = y;
    out[at + 2] = z;
    3
}

// The second width.
fn second_of(w: u32, b: u32, e: usize) -> u32
    requires { b ≤ w }
    ensures { (result ≡ pick (eqb e 0) 0 (w - b)) × (b + result ≤ w) }
{
    if e == 0 {
        return 0;
    }
    w - b
}

// The two widths of a chunk's values, and how many of them are exceptions.
#[derive(Clone, Copy)]
struct Widths {
    first: u32,
    second: u32,
    exceptions: usize,
}

// Those of descriptors less m, the least of them.
fn choose_widths(ds: &[u8], m: u8) -> Widths
    requires { (length ds.now ≤ 256) × (m ≡ least ds.now) }
    ensures { Chosen (map (λ d. d - m) ds.now) result }
{
    let w = width_choice::largest_width(ds, m);
    let first = width_choice::cheapest_at(ds, m, w);
    let exceptions = width_choice::wider_of(ds, m, first);
    let second = second_of(w, first, exceptions);
    Widths {
        first,
        second,
        exceptions,
    }
}

// The low parts of the values, packed.
fn put_low(vs: &[u8], b: u32, out: &mut [u8], at: usize) -> usize
    requires { (length vs.now ≤ 256) × (b ≤ 8) × (at + ceil8 (length vs.now * b) ≤ length out.old) }
    ensures { (result ≡ ceil8 (length vs.now * b)) × (out.new ≡ written out.old at (pack_values (λ i. get_or vs.now i 0 % 2 ^ b) b (length vs.now))) }
{
    bit_pack::put_packed(vs, b, out, at)
}

// The high parts of the exceptions, packed at out[at]. Their offsets lie before that, from out[from] on.
fn put_high(vs: &[u8], b: u32, b2: u32, out: &mut [u8], from: usize, at: usize) -> usize
    requires { (from ≤ at) × (at - from ≤ 256) × (b < 8) × (b2 ≤ 8) × ((j : ℕ) → j < at - from → get_or (take (at - from) (drop from out.old)) j 0 < length vs.now) × (at + ceil8 ((at - from) * b2) ≤ length out.old) }
    ensures { (result ≡ ceil8 ((at - from) * b2)) × (out.new ≡ written out.old at (pack_values (λ j. get_or vs.now (get_or (take (at - from) (drop from out.old)) j 0) 0 / 2 ^ b) b2 (at - from))) }
{
    let mut a = [0u8; 256];
    let e = chunk_parts::high_parts(vs, b, &out[from..at], &mut a);
    bit_pack::put_packed(&a[..e], b2, out, at)
}

// The exceptions: their offsets, then their high parts, packed.
fn put_exceptions(vs: &[u8], ws: &[u8], b: u32, b2: u32, out: &mut [u8], at: usize) -> usize
    requires { (length vs.now ≤ 256) × (length ws.now ≡ length vs.now) × (b < 8) × (b2 ≤ 8) × (at + length (offsets ws.now b (length ws.now)) + ceil8 (length (offsets ws.now b (length ws.now)) * b2) ≤ length out.old) }
    ensures { (result ≡ length (offsets ws.now b (length ws.now)) + ceil8 (length (offsets ws.now b (length ws.now)) * b2)) × (out.new ≡ written out.old at (exceptions_of vs.now b b2 (offsets ws.now b (length ws.now)))) }
{
    let o = chunk_parts::put_offsets(ws, b, out, at);
    let x = put_high(vs, b, b2, out, at, at + o);
    o + x
}

// A chunk's bytes at the widths b and b2, with e exceptions.
fn put_at(
    vs: &[u8],
    ws: &[u8],
    m: u8,
    b: u32,
    b2: u32,
    e: usize,
    out: &mut [u8],
    at: usize,
) -> usize
    requires { (length vs.now ≤ 256) × (length ws.now ≡ length vs.now) × (b < 8) × (b2 ≤ 8) × (e < 256) × (e ≡ length (offsets ws.now b (length ws.now))) × (at + (3 + ceil8 (length vs.now * b) + e + ceil8 (e * b2)) ≤ length out.old) }
    ensures { (result ≡ 3 + ceil8 (length vs.now * b) + e + ceil8 (e * b2)) × (out.new ≡ written out.old at (chunk_at vs.now m b b2 (offsets ws.now b (length ws.now)))) }
{
    put3(out, at, (b + 16 * b2) as u8, e as u8, m);
    let p = put_low(vs, b, out, at + 3);
    if e == 0 {
        return 3 + p;
    }
    let x = put_exceptions(vs, ws, b, b2, out, at + 3 + p);
    3 + p + x
}

// A chunk's bytes from its values and their widths.
fn put_values(vs: &[u8], ws: &[u8], m: u8, out: &mut [u8], at: usize) -> usize
    requires { (length vs.now ≤ 256) × (ws.now ≡ map width vs.now) × (0 ≡ least vs.now) × (largest (map width vs.now) ≤ 6) × (at + size_at vs.now (cheapest vs.now (largest (map width vs.now))) ≤ length out.old) }
    ensures { (result ≡ size_at vs.now (cheapest vs.now (largest (map width vs.now)))) × (out.new ≡ written out.old at (chunk_of vs.now m (cheapest vs.now (largest (map width vs.now))))) }
{
    let t = choose_widths(vs, 0);
    put_at(vs, ws, m, t.first, t.second, t.exceptions, out, at)
}

// How many bytes a chunk of descriptors less m, the least of them, takes.
fn values_size(ds: &[u8], m: u8) -> usize
    requires { (length ds.now ≤ 256) × (m ≡ least ds.now) }
    ensures { result ≡ size_at (map (λ d. d - m) ds.now) (cheapest (map (λ d. d - m) ds.now) (largest (map width (map (λ d. d - m) ds.now)))) }
{
    let t = choose_widths(ds, m);
    let low = width_choice::packed_size(ds.len(), t.first);
    3 + low + t.exceptions + width_choice::packed_size(t.exceptions, t.second)
}

// A chunk of descriptors.
pub fn put_chunk(ds: &[u8], out: &mut [u8], at: usize) -> usize
    requires { (0 < length ds.now) × (length ds.now ≤ 256) × AllLe 63 ds.now × (at + length (write_chunk ds.now) ≤ length out.old) }
    ensures { (result ≡ length (write_chunk ds.now)) × (out.new ≡ written out.old at (write_chunk ds.now)) }
{
    let m = width_choice::least_of(ds);
    let mut a = [0u8; 256];
    let n = chunk_parts::less(ds, m, &mut a);
    let mut ws = [0u8; 256];
    let k = width_choice::widths_of(ds, m, &mut ws);
    put_values(&a[..n], &ws[..k], m, out, at)
}

// How many bytes a chunk of these descriptors takes.
pub fn chunk_size(ds: &[u8]) -> usize
    requires { (0 < length ds.now) × (length ds.now ≤ 256) × AllLe 63 ds.now }
    ensures { (result ≡ length (write_chunk ds.now)) × (result ≤ 195) }
{
    let m = width_choice::least_of(ds);
    values_size(ds, m)
}
