#![tactic(auto)]

// Whether bytes are the written form of the set that they stand for: they are judged, their descriptors must be those of a form, and the
// least value, widths and number of exceptions of each chunk those of its written form. Inner: no entry point.
ghost use Rattle.std.specs.Prelude.{◌≡◌, ◌/◌, ◌≤◌, ◌<◌, length, eqb};
ghost use Rattle.common.specs.Outcome.{pick, both};
ghost use Rattle.judge.specs.Post.{RoomFor};
ghost use Rattle.store_spec.specs.Store.{is_form};
ghost use Rattle.form_check.specs.Heads.{is_settled, head_is, heads_are};
ghost use Rattle.form_check.specs.Read.{Reads};

use bitmap_spec::ChunkHead;

// Whether no descriptor is over 32 and the last, if any, is not 0.
fn is_settled(ds: &[u8]) -> bool
    ensures { result ≡ is_settled ds.now }
{
    if 32 < width_choice::largest_of(ds) {
        return false;
    }
    let n = ds.len();
    if n == 0 {
        return true;
    }
    0 < ds[n - 1]
}

// Whether a head has e exceptions, and parts of b2 bits unless there are none.
fn exceptions_are(h: ChunkHead, e: usize, b2: u32) -> bool
    ensures { result ≡ both (eqb h.e e) (eqb h.b2 (pick (eqb e 0) 0 b2)) }
{
    h.e == e && h.b2 == if e == 0 { 0 } else { b2 }
}

// Whether a head is that of a chunk whose values are all 0.
fn is_flat(h: ChunkHead) -> bool
    ensures { result ≡ both (eqb h.b1 0) (both (eqb h.e 0) (eqb h.b2 0)) }
{
    h.b1 == 0 && exceptions_are(h, 0, 0)
}

// Whether a chunk's head is that of the written chunk of these descriptors.
fn head_is(h: ChunkHead, ds: &[u8]) -> bool
    requires { (0 < length ds.now) × (length ds.now ≤ 256) }
    ensures { result ≡ head_is h ds.now }
{
    let m = width_choice::least_of(ds);
    if h.m != m as u32 {
        return false;
    }
    let w = width_choice::largest_width(ds, m);
    if w == 0 {
        return is_flat(h);
    }
    let b = width_choice::cheapest_at(ds, m, w);
    if h.b1 != b {
        return false;
    }
    let e = width_choice::wider_of(ds, m, b);
    exceptions_are(h, e, w - b)
}

// Whether the head of each chunk is that of the written one.
fn heads_are(s: &[u8], ds: &[u8]) -> bool
    requires { (length ds.now ≤ 8192) × Reads s.now ds.now }
    ensures { result ≡ heads_are s.now 6 (length ds.now / 256) ds.now }
{
    let mut at: usize = 6;
    for chunk in ds.chunks(256) {
        let h = chunk_read::head_at(s, at, chunk.len());
        if !head_is(h, chunk) {
            return false;
        }
        at = h.parts + (h.e * (h.b2 as usize) + 7) / 8;
    }
    true
}

// Whether s is the written form of its set, with room for its descriptors in d.
fn form_in(s: &[u8], d: &mut [u8]) -> bool
    requires { RoomFor s.now (length d.old) }
    ensures { result ≡ is_form s.now }
{
    let Ok(judged) = judge::judge_read(s, d) else {
        return false;
    };
    let ds = &d[..judged.count];
    is_settled(ds) && heads_are(s, ds)
}

// Whether s is the written form of the set that it stands for.
pub fn is_form(s: &[u8]) -> bool
    ensures { result ≡ is_form s.now }
{
    if judge::is_small(s) {
        let mut few = [0u8; 256];
        return form_in(s, &mut few);
    }
    let mut all = [0u8; 8192];
    form_in(s, &mut all)
}
