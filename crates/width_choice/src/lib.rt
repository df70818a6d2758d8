#![tactic(auto)]

// Widths, costs and the choice of the width b1 of a chunk. Inner: no entry point.
ghost use Rattle.std.specs.Prelude.{◌≡◌, map, ℕ, ◌+◌, ◌-◌, ◌*◌, ◌≤◌, ◌<◌, ltb, length, get_or};
ghost use Rattle.common.specs.Bytes.{ceil8};
ghost use Rattle.common.specs.Outcome.{pick};
ghost use Rattle.bitmap_spec.specs.Form.{width, least, largest, wider, cost, cheapest};
ghost use Rattle.bitmap_spec.specs.Output.{written};
ghost use Rattle.width_choice.specs.Over.{over};

// The fewest bits that hold v.
fn width_of(v: u8) -> u8
    ensures { result ≡ width v }
{
    (8 - u8::leading_zeros(v)) as u8
}

// The width of each descriptor less m.
pub fn widths_of(ds: &[u8], m: u8, ws: &mut [u8]) -> usize
    requires { (length ds.now ≤ length ws.old) × ((i : ℕ) → i < length ds.now → m ≤ get_or ds.now i 0) }
    ensures { (result ≡ length ds.now) × (ws.new ≡ written ws.old 0 (map width (map (λ d. d - m) ds.now))) }
{
    for (i, &d) in ds.iter().enumerate() {
        ws[i] = width_of(d - m);
    }
    ds.len()
}

// The least of the values.
pub fn least_of(ds: &[u8]) -> u8
    requires { 0 < length ds.now }
    ensures { result ≡ least ds.now }
{
    let mut m = ds[0];
    for &d in &ds[1..] {
        if d < m {
            m = d;
        }
    }
    m
}

// The largest of the values.
pub fn largest_of(ws: &[u8]) -> u8
    ensures { result ≡ largest ws.now }
{
    let mut m: u8 = 0;
    for &w in ws {
        if m < w {
            m = w;
        }
    }
    m
}

// How many of ds are over t, counted in a byte and with no branch, so that the back end compares sixteen at a time.
fn count_over(ds: &[u8], t: u8) -> usize
    requires { length (over t ds.now) ≤ 255 }
    ensures { result ≡ length (over t ds.now) }
{
    let mut e: u8 = 0;
    for &d in ds {
        e += (t < d) as u8;
    }
    e as usize
}

// The largest width of descriptors less m, the least of them.
pub fn largest_width(ds: &[u8], m: u8) -> u32
    requires { m ≡ least ds.now }
    ensures { (result ≡ largest (map width (map (λ d. d - m) ds.now))) × (result ≤ 8) }
{
    width_of(largest_of(ds) - m) as u32
}

// How many descriptors less m, the least of them, are wider than b: those over m + 2^b - 1. By a threshold, so that no
// width is worked out.
pub fn wider_of(ds: &[u8], m: u8, b: u32) -> usize
    requires { (length ds.now ≤ 256) × (m ≡ least ds.now) × (b ≤ 8) }
    ensures { (result ≡ length (wider b (map (λ d. d - m) ds.now))) × (result ≤ 255) }
{
    let t = (m as u32) + (1 << b) - 1;
    if 255 < t {
        return 0;
    }
    count_over(ds, t as u8)
}

// How many bytes n values of b bits take, packed.
pub fn packed_size(n: usize, b: u32) -> usize
    requires { (n ≤ 256) × (b ≤ 8) }
    ensures { (result ≡ ceil8 (n * b)) × (result ≤ 256) }
{
    (n * (b as usize) + 7) / 8
}

// The cost of the width b for descriptors less m, the least of them, where w is the largest width.
fn cost_at(ds: &[u8], m: u8, w: u32, b: u32) -> usize
    requires { (length ds.now ≤ 256) × (m ≡ least ds.now) × (w ≡ largest (map width (map (λ d. d - m) ds.now))) × (w ≤ 8) × (b ≤ w) }
    ensures { result ≡ cost (map (λ d. d - m) ds.now) b }
{
    let e = wider_of(ds, m, b);
    packed_size(ds.len(), b) + e + packed_size(e, w - b)
}

// The one of best and w that costs less, best on a tie.
fn cheaper(best: u32, least: usize, w: u32, top: usize) -> u32
    ensures { result ≡ pick (ltb top least) w best }
{
    if top < least {
        return w;
    }
    best
}

// The width of least cost for descriptors less m, the least of them, the smaller on a tie; w is the largest width.
pub fn cheapest_at(ds: &[u8], m: u8, w: u32) -> u32
    requires { (length ds.now ≤ 256) × (m ≡ least ds.now) × (w ≡ largest (map width (map (λ d. d - m) ds.now))) × (w ≤ 8) }
    ensures { (result ≡ cheapest (map (λ d. d - m) ds.now) w) × (result ≤ w) }
{
    let top = packed_size(ds.len(), w);
    let mut best: u32 = 0;
    let mut least = cost_at(ds, m, w, 0);
    for b in 1..=w {
        let low = packed_size(ds.len(), b);
        // a larger width costs at least its low parts
        if least <= low {
            return best;
        }
        // and, below w, two bytes of exceptions more: then w is settled with no further count
        if top < low + 2 {
            return cheaper(best, least, w, top);
        }
        let c = cost_at(ds, m, w, b);
        if c < least {
            best = b;
            least = c;
        }
    }
    // only a w of 0 ends here
    best
}
