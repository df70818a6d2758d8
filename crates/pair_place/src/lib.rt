#![tactic(auto)]

// The form of two judged bitmaps combined: by way of an array if it is small, else made in the output itself. Inner: no
// entry point.
ghost use Rattle.std.specs.Prelude.{◌≡◌, ◌++◌, map, ◌+◌, ◌-◌, ◌*◌, ◌/◌, ◌≤◌, ◌<◌, max, min, length, take, drop, leb};
ghost use Rattle.common.specs.Lists.{from, sum};
ghost use Rattle.bitmap_spec.specs.Judge.{size_of};
ghost use Rattle.bitmap_spec.specs.Form.{form, cut, write_chunks, write_containers};
ghost use Rattle.bitmap_spec.specs.Output.{written, placed, Gives};
ghost use Rattle.bitmap_laws.proofs.Round.{header};
ghost use Rattle.bitmap_laws.proofs.Values.{AllLe};
ghost use Rattle.pair_write.specs.Sides.{Roomy, result_of};
ghost use Rattle.pair_place.specs.Forms.{Described, GivesForm, Passed};

use bitmap_spec::Operation;
use common::Refusal;
use judge::Set;
use pair_write::Reached;

// Whether a form with these descriptors, whose containers take `size` bytes, has at most `room`. The chunks are measured
// only where their bound does not tell: they are then gone through once, when they are written.
fn fits(ds: &[u8], size: usize, room: usize) -> bool
    requires { (length ds.now ≤ 8192) × AllLe 63 ds.now × (size ≡ sum size_of ds.now) }
    ensures { result ≡ leb (6 + length (write_chunks (length ds.now / 256) ds.now) + size) room }
{
    if 6 + 195 * ((ds.len() + 255) / 256) + size <= room {
        return true;
    }
    form_write::form_size(ds) <= room
}

// Writes the form of the set that has these descriptors, this cardinality and these containers, or refuses for room.
fn put_form(card: u32, ds: &[u8], body: &[u8], out: &mut [u8]) -> Result<usize, Refusal>
    requires { Described card ds.now body.now }
    ensures { GivesForm card ds.now body.now out.old out.new result }
{
    if !fits(ds, body.len(), out.len()) {
        return Err(Refusal::Room);
    }
    let to = form_write::put_head(ds, card, out);
    let len = to + body.len();
    byte_move::copy_part(body, 0, body.len(), out, to);
    Ok(len)
}

// Writes the form of the result by way of ds and body, which have room for n containers: nothing goes out before its
// length is known.
fn put_through(
    o: Operation,
    x: Set<'_>,
    y: Set<'_>,
    n: usize,
    ds: &mut [u8],
    body: &mut [u8],
    out: &mut [u8],
) -> Result<usize, Refusal>
    requires { (n ≡ max (length x.descriptors.now) (length y.descriptors.now)) × (n ≤ length ds.old) × Roomy (result_of o x y) 0 n 0 (length body.old) }
    ensures { Gives (placed (form (result_of o x.entry y.entry)) (length out.old)) out.old out.new result }
{
    let p = Reached {
        card: 0,
        size: 0,
        at: x.start,
        bt: y.start,
    };
    let g = pair_write::gather(o, x, y, p, 0, n, ds, body);
    let m = form_write::trim(ds, n);
    put_form(g.card, &ds[..m], &body[..g.size], out)
}

// The same for at most N containers, by way of arrays for them: small arrays are cleared faster.
fn put_by_arrays<const N: usize, const B: usize>(
    o: Operation,
    x: Set<'_>,
    y: Set<'_>,
    n: usize,
    out: &mut [u8],
) -> Result<usize, Refusal>
    requires { (n ≡ max (length x.descriptors.now) (length y.descriptors.now)) × (n ≤ N) × (N ≤ 256) × (B ≡ N * 32) }
    ensures { Gives (placed (form (result_of o x.entry y.entry)) (length out.old)) out.old out.new result }
{
    let mut ds = [0u8; N];
    let mut body = [0u8; B];
    put_through(o, x, y, n, &mut ds, &mut body, out)
}

// Makes all n containers, 256 at a time in body, and puts their bytes to out[to] and on, one after the other.
fn put_chunkwise(
    o: Operation,
    x: Set<'_>,
    y: Set<'_>,
    n: usize,
    ds: &mut [u8],
    body: &mut [u8],
    out: &mut [u8],
    to: usize,
) -> Reached
    requires { (n ≤ 8192) × (n ≤ length ds.old) × (8192 ≤ length body.old)
        × (to + length (write_containers (map (cut (result_of o x y)) (from 0 n))) ≤ length out.old) }
    ensures { Passed (result_of o x.entry y.entry) x.entry y.entry n ds.old ds.new out.old out.new to result }
{
    let mut p = Reached {
        card: 0,
        size: 0,
        at: x.start,
        bt: y.start,
    };
    let mut k: usize = 0;
    // a step of up to 256
    while k < n {
        let e = chunks_write::chunk_end(k, n);
        let q = pair_write::gather(o, x, y, p, k, e, ds, body);
        byte_move::copy_part(body, 0, q.size - p.size, out, to + p.size);
        p = q;
        k = e;
    }
    p
}

// Puts header and chunks before the containers, whose bytes lie at out[6] and on and move up; says how long it all is.
// They are made apart, so that the chunks are gone through once: where the containers go is known when they are made.
fn put_before(card: u32, ds: &[u8], size: usize, out: &mut [u8]) -> usize
    requires { (length ds.now ≤ 8192) × AllLe 63 ds.now × (size ≡ sum size_of ds.now) × (6 + length (write_chunks (length ds.now / 256) ds.now) + size ≤ length out.old) }
    ensures { (result ≡ 6 + length (write_chunks (length ds.now / 256) ds.now) + size)
        × (out.new ≡ written out.old 0 ((header card (length ds.now) ++ write_chunks (length ds.now / 256) ds.now) ++ take size (drop 6 out.old))) }
{
    let mut head = [0u8; 6246];
    let to = form_write::put_head(ds, card, &mut head);
    byte_move::move_up(out, 6, to, size);
    byte_move::copy_part(&head, 0, to, out, 0);
    to + size
}

// Writes the form of the result, which is known to fit: its containers first, at out[6] and on, inside the form.
// Called from two places, so that it stays out of put_large.
fn put_known(
    o: Operation,
    x: Set<'_>,
    y: Set<'_>,
    n: usize,
    ds: &mut [u8],
    body: &mut [u8],
    out: &mut [u8],
) -> Result<usize, Refusal>
    requires { (n ≡ max (length x.descriptors.now) (length y.descriptors.now)) × (n ≤ length ds.old) × (8192 ≤ length body.old) × (length (form (result_of o x y)) ≤ length out.old) }
    ensures { Gives (placed (form (result_of o x.entry y.entry)) (length out.old)) out.old out.new result }
{
    let p = put_chunkwise(o, x, y, n, ds, body, out, 6);
    let m = form_write::trim(ds, n);
    Ok(put_before(p.card, &ds[..m], p.size, out))
}

// How long the form of the result is; ds is written over.
fn form_length(o: Operation, x: Set<'_>, y: Set<'_>, n: usize, ds: &mut [u8]) -> usize
    requires { (n ≡ max (length x.descriptors.now) (length y.descriptors.now)) × (n ≤ length ds.old) }
    ensures { result ≡ length (form (result_of o x.entry y.entry)) }
{
    pair_write::describe(o, x, y, n, ds);
    let m = form_write::trim(ds, n);
    form_write::form_size(&ds[..m])
}

// The most bytes that a form of n containers takes, which in all take at most `most`. A chunk takes at most 195 bytes,
// but over 163 only if one of its containers takes none.
fn bound(n: usize, most: usize) -> usize
    requires { (n ≤ 8192) × (most ≤ 524288) }
    ensures { result ≡ 6 + min (195 * ((n + 255) / 256) + most) (163 * ((n + 255) / 256) + 32 * n) }
{
    let c = (n + 255) / 256;
    6 + usize::min(195 * c + most, 163 * c + 32 * n)
}

// Writes the form of the result, or refuses for room; both bitmaps' containers take `most` bytes. Few bytes go by way
// of body; else the length is counted first if the output is not large enough for any such form.
// The arrays stand here alone and are lent, so that the stack has them once.
fn put_large(
    o: Operation,
    x: Set<'_>,
    y: Set<'_>,
    n: usize,
    most: usize,
    out: &mut [u8],
) -> Result<usize, Refusal>
    requires { (n ≡ max (length x.descriptors.now) (length y.descriptors.now)) × (most ≡ (length x.bytes.now - x.start) + (length y.bytes.now - y.start)) }
    ensures { Gives (placed (form (result_of o x.entry y.entry)) (length out.old)) out.old out.new result }
{
    let mut ds = [0u8; 8192];
    let mut body = [0u8; 8192];
    if most <= 8160 {
        return put_through(o, x, y, n, &mut ds, &mut body, out);
    }
    if bound(n, most) <= out.len() {
        return put_known(o, x, y, n, &mut ds, &mut body, out);
    }
    if form_length(o, x, y, n, &mut ds) <= out.len() {
        return put_known(o, x, y, n, &mut ds, &mut body, out);
    }
    Err(Refusal::Room)
}

// Writes the form of two judged bitmaps combined, or refuses for room.
pub fn put_combined(o: Operation, x: Set<'_>, y: Set<'_>, out: &mut [u8]) -> Result<usize, Refusal>
    ensures { Gives (placed (form (result_of o x.entry y.entry)) (length out.old)) out.old out.new result }
{
    let n = usize::max(x.descriptors.len(), y.descriptors.len());
    if n <= 32 {
        return put_by_arrays::<32, 1024>(o, x, y, n, out);
    }
    if n <= 256 {
        return put_by_arrays::<256, 8192>(o, x, y, n, out);
    }
    let most = (x.bytes.len() - x.start) + (y.bytes.len() - y.start);
    put_large(o, x, y, n, most, out)
}
